//! Sessions with clients that come one after the other, in threads that nobody joins.
ghost use Rattle.std.specs.Prelude.{◌≡◌, IfErr};
ghost use Rattle.roadnet.specs.declared.refusals.Refusal.TheVariants.{NoThread as no_thread};
ghost use Rattle.sessions.specs.Clients.{IsAnsweredAt};

use crate::clients::answering::Answering;
use crate::clients::past::Past;
use crate::clients::served::{Finished, serve_client};
use crate::clients::serving::Terms;
use desk::{Handle, Naming, Served};
use printing::Failed;
use roadnet::Refusal;
use session_lines::{AskingAlone, Copies, Door, LastLine};
use std::alloc::Global;
use std::io::{BufRead, Write};
use std::sync::{Arc, Mutex, MutexGuard, Wait};
use std::thread::{self, JoinHandle, Threads};

/// What the sessions at the doors of one desk share: what the finished ones left, which sessions are within an answer, and who makes copies for them.
#[derive(Drop)]
pub struct Visits<N: Naming, C> {
    past: Mutex<Past<N>>,
    answering: Answering,
    copies: C,
}

impl<N: Naming, C: Copies> Visits<N, C> {
    /// Nobody has come yet.
    pub fn new(copies: C) -> Visits<N, C>
        ensures { result.copies ≡ copies }
    {
        Visits {
            past: Mutex::new(Past::new()),
            answering: Answering::new(),
            copies,
        }
    }

    /// Whoever makes the copies for which sessions ask.
    pub fn copies(&self) -> &C
        ensures { result.now ≡ self.now.copies }
    {
        &self.copies
    }

    /// Which sessions are within an answer.
    pub fn answering(&self) -> &Answering {
        &self.answering
    }

    /// What the finished sessions left, under its lock: `Past::add` says what a session that ends adds to it, and `Past::is_kept` compares it with their desk.
    pub fn past<R: Wait>(&self, rt: &R) -> MutexGuard<'_, Past<N>> {
        self.past.lock(rt)
    }
}

/// A session with a client that has come through a door, as `serve`. A client of a pipe may be cut off within a line: that line is not carried out.
fn serve_at<S: Served, I: BufRead, W: Write, C: Copies>(
    rt: &S::Runtime,
    alloc: Global,
    desk: &Handle<S>,
    asks_alone: bool,
    visits: &Visits<S::Naming, C>,
    reader: &mut I,
    writer: &mut W,
) -> Finished<S::Naming>
    // If the sessions of the door may only ask, no command is carried out.
    ensures { IsAnsweredAt asks_alone (C.copying visits.now.copies) S.Naming.origin I.remaining W.contents reader.old reader.new writer.old writer.new result }
{
    let last_line = LastLine::Dropped;
    let answering = &visits.answering;
    if asks_alone {
        let terms = Terms {
            last_line,
            answering,
            copies: &AskingAlone,
        };
        return serve_client(rt, alloc, desk, terms, reader, writer);
    }
    let terms = Terms {
        last_line,
        answering,
        copies: &visits.copies,
    };
    serve_client(rt, alloc, desk, terms, reader, writer)
}

/// A session with one client after the other.
fn serve_in_turn<S: Served, I: BufRead, W: Write, P: Door<I, W>, C: Copies>(
    rt: &S::Runtime,
    alloc: Global,
    desk: &Handle<S>,
    door: &mut P,
    visits: &Visits<S::Naming, C>,
) {
    for _ in rt.forever() {
        let Some((mut reader, mut writer)) = door.next() else {
            return;
        };
        let asks_alone = door.asks_alone();
        let Finished {
            outcome,
            session,
            failed_reads: _,
            failed_writes: _,
        } = serve_at(
            rt,
            alloc,
            desk,
            asks_alone,
            visits,
            &mut reader,
            &mut writer,
        );
        visits.past(rt).add(session);
        door.ended(reader, writer, outcome);
    }
}

/// A thread that was started and let go: it is cut off where the program ends. Without a thread there is none of this.
#[derive(Drop)]
pub struct Started {
    thread: JoinHandle<()>,
}

/// Starts a thread that does this work over what it is handed, and lets it go. Refused is a thread that the system does not give (63).
///
/// Nothing is known here of what the thread is given, except that it may go to another thread.
pub fn let_go<
    R: Threads,
    T: Send + Drop + 'static,
    P: Send + Drop + 'static,
    F: FnOnce(T, P) + Send + Drop + 'static,
>(rt: &R, desk: T, visits: P, work: F) -> Result<Started, Refusal>
    requires { F.IsAlwaysCallable work }
    ensures { IfErr result (λ refusal. refusal ≡ no_thread) }
{
    let started = thread::spawn(
        rt,
        move ||
            requires { F.IsAlwaysCallable work }
        { work(desk, visits) },
    );
    match started {
        Ok(thread) => Ok(Started { thread }),
        Err(_) => Err(Refusal::NoThread),
    }
}

/// Starts a thread that serves those who come through a door, one after the other, and does not join it: it is cut off when the program ends. What its
/// finished sessions leave is added to what others left. A last line that no line feed ends is not carried out.
///
/// It fails with 63 if the system gives no thread. Then the door is dropped.
pub fn serve_door<
    S: Served + Send + 'static,
    I: BufRead + Send + 'static,
    W: Write + Send + 'static,
    P: Door<I, W> + Drop + Send + 'static,
    C: Copies + Drop + Send + Sync + 'static,
>(
    rt: S::Runtime,
    alloc: Global,
    desk: Handle<S>,
    mut door: P,
    visits: Arc<Visits<S::Naming, C>>,
) -> Result<Started, Refusal>
where
    S::Naming: Send + Sync + 'static,
    S::Disk: Send + 'static,
    S::Gate: Send + Sync + 'static,
    S::Runtime: Send + Sync + 'static,
    ensures { IfErr result (λ refusal. refusal ≡ no_thread) }
{
    let_go(
        &rt,
        desk,
        visits,
        move |desk: Handle<S>, visits: Arc<Visits<S::Naming, C>>| serve_in_turn(
            &rt, alloc, &desk, &mut door, &visits,
        ),
    )
}
