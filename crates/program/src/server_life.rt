//! The life of a server: it accepts so many commands, and ends when a group might not fit among them, so that it is started again.
ghost use Rattle.std.specs.Prelude.{◌≡◌, ◌+◌, IfErr, nat_lt};
ghost use Rattle.roadnet.specs.Groups.{count_of, most_of_group};
ghost use Rattle.machine.specs.Machine.{most_of_life};
ghost use Rattle.desk.specs.Openings.{IsUnstarted};

use desk::{Closed, Handle, Served};
use disk::Disk;
use machine::MOST_OF_LIFE;
use roadnet::{Group, MOST_OF_GROUP, Refusal};
use sessions::{Started, let_go};
use std::fs::{self, File, OpenOptions};
use std::io::{self, Write};
use std::os::unix::fs::FileTypeExt;
use std::rt::Files;
use std::thread;
use std::time::Duration;

/// The standard input of the process, as a name by which it may be opened once more.
const INPUT: &str = "/proc/self/fd/0";

/// How many seconds pass between two looks at a desk.
const APART: u64 = 1;

/// Writes the line `quit` after everything that the standard input has, if that is a pipe. A line that has begun there is ended first.
fn quit_input<R: Files<File = File>>(rt: &R) -> io::Result<()> {
    if !fs::metadata(rt, INPUT)?.file_type().is_fifo() {
        return Ok(());
    }
    let mut input = OpenOptions::new().write(true).open(rt, INPUT)?;
    input.write_all(b"\nquit\n")
}

/// Checks each second whether a desk can accept another group, until it is closed, and sends the server `quit` once it cannot.
fn watch_life<S: Served>(rt: &S::Runtime, desk: &Handle<S>)
where
    S::Runtime: Files<File = File>,
{
    for _ in rt.forever() {
        let Ok(state) = desk.state() else {
            return;
        };
        if state.left < MOST_OF_GROUP as u64 {
            let _ = quit_input(rt);
            return;
        }
        thread::sleep(rt, Duration::from_secs(APART));
    }
}

/// Starts a thread that ends a server once its desk can accept no other group, and does not join it: it ends once the desk is closed, or is cut off when
/// the program ends. It fails with 11 for lack of memory, and with 63 if the system gives no thread.
#[inline(never)]
pub fn start_watching<S: Served + Send + 'static>(
    rt: S::Runtime,
    desk: &Handle<S>,
) -> Result<Started, Refusal>
where
    S::Naming: Send + Sync + 'static,
    S::Disk: Send + 'static,
    S::Gate: Send + Sync + 'static,
    S::Runtime: Files<File = File> + Send + Sync + 'static,
    <S::Runtime as Files>::Dir: Send + 'static,
    ensures causes { IfErr result IsUnstarted }
{
    let Ok(desk) = desk.again() else {
        return Err(Refusal::OutOfMemory);
    };
    let_go(
        &rt,
        desk,
        (),
        move |desk: Handle<S>, _nothing: ()| watch_life(&rt, &desk),
    )
}

/// Whether these groups leave fewer commands of a life than a group may have.
fn leave_too_few(groups: &[Group]) -> bool
    ensures { result ≡ nat_lt most_of_life (count_of groups.now + most_of_group) }
{
    let mut count = 0;
    for group in groups {
        count += group.commands().len();
        if count + MOST_OF_GROUP > MOST_OF_LIFE {
            return true;
        }
    }
    false
}

/// Whether a closed desk accepted so many commands of its life that fewer are left than a group may have.
pub fn is_spent<D: Disk>(closed: &Closed<D>) -> bool
    ensures { result ≡ nat_lt most_of_life (count_of closed.now.whole.groups + most_of_group) }
{
    leave_too_few(&closed.history)
}
