//! The doors of a server: pairs of named pipes, through each of which clients come one after the other.
ghost use Rattle.std.specs.Prelude.{◌≡◌, ◌≤◌, ℕ, Bool, false, List, ◌⊎◌, length, map, IsNone, IsSome, IfOk, IfErr, OnOk, ⊤};
ghost use Rattle.std.specs.Bool.{Decides};
ghost use Rattle.std.specs.Io.Buffered.{writer_inner};
ghost use Rattle.server_files.specs.Doors.{HasGivenUp, HasOpened, IsErrOf, IsOfNoPipe, begins_at, came_in, done_at, is_waited_for, left_out, let_out, stands_at, told_of_end};
ghost use Rattle.words.specs.Pipes.{names_of, AreTold};

use crate::deeds::Side;
use crate::guests::Guests;
use crate::pipes::{Pipes, Unserved, Why};
use file_jobs::{FIRST_PIPE, unopened};
use printing::Failed;
use roadnet::Refusal;
use session_lines::Door;
use std::alloc::{AllocError, Global};
use std::fs::{self, File};
use std::io::{self, BufReader, BufWriter, ErrorKind, Write};
use std::os::unix::fs::FileTypeExt;
use std::rt::Files;
use std::sync::{Arc, Mutex, Wait};
use std::time::Clock;
use words::{PipePair, pipe_at};

/// How many bytes of a client are read or written at once: it reads the first of its answers while the rest is made.
const BUFFER: usize = 1 << 12;

/// Doors, and whether clients may come in through them: not before each has its thread.
#[derive(Drop)]
pub struct Doors<C> {
    pub doors: Vec<C>,
    pub are_open: Arc<Mutex<bool>>,
    /// The clients that come in.
    pub guests: Guests,
}

/// The pipe for a client's answers. It knows whether the client has closed its end.
#[derive(Drop)]
pub struct AnswerPipe {
    file: File,
    has_reader: bool,
}

/// Whether a write failed because the client has closed its end.
fn has_left<T>(answer: &io::Result<T>) -> bool
    ensures { Decides result (IsErrOf ErrorKind.BrokenPipe answer.now) }
{
    match answer {
        Err(error) => error.kind() == ErrorKind::BrokenPipe,
        Ok(_) => false,
    }
}

impl Write for AnswerPipe {
    fn write(&mut self, buf: &[u8]) -> io::Result<usize> {
        let answer = self.file.write(buf);
        if has_left(&answer) {
            self.has_reader = false;
        }
        answer
    }

    fn flush(&mut self) -> io::Result<()> {
        self.file.flush()
    }
}

/// A pair of named pipes, through which clients come in.
#[derive(Drop)]
pub struct PipeDoor<T> {
    pipes: Pipes<T>,
    alloc: Global,
    asks_alone: bool,
    are_open: Arc<Mutex<bool>>,
    guests: Guests,
}

/// A client that has come.
type Client = (BufReader<File>, BufWriter<AnswerPipe>);

/// A client with two open pipes, if there is memory for it.
fn client_of(alloc: Global, input: File, output: File) -> io::Result<Client> {
    let reader = BufReader::with_capacity(alloc, BUFFER, input)?;
    let pipe = AnswerPipe {
        file: output,
        has_reader: true,
    };
    let writer = BufWriter::with_capacity(alloc, BUFFER, pipe)?;
    Ok((reader, writer))
}

impl<T: Files<File = File>> PipeDoor<T> {
    /// Opens the pipe for reading, and then the one for writing. It waits until a client has opened both.
    fn open(&mut self) -> Result<Client, Unserved>
        ensures came { OnOk result (done_at self.new ≡ came_in (done_at self.old)) }
    {
        let input = self.pipes.open(Side::Input)?;
        let output = self.pipes.open(Side::Output)?;
        match client_of(self.alloc, input, output) {
            Ok(client) => Ok(client),
            Err(_) => Err(Unserved {
                side: Side::Input,
                why: Why::NoMemory,
            }),
        }
    }
}

impl<T: Eprint + Clock + Wait> PipeDoor<T> {
    /// Whether clients may come in.
    fn is_open(&self) -> bool {
        *self.are_open.lock(self.pipes.rt())
    }

    /// Reports why no client could come in, and returns whether the next one may: after a rest, if there was no memory.
    fn goes_on(&mut self, unserved: Unserved) -> bool
        ensures waits { result ≡ is_waited_for unserved.why }
        ensures deeds { done_at self.new ≡ left_out unserved.side unserved.why (done_at self.old) }
        ensures gives_up { result ≡ false → HasGivenUp (done_at self.new) }
    {
        let Unserved { side, why } = unserved;
        if let Why::NoMemory = why {
            self.pipes.tell(side, &Refusal::OutOfMemory);
            self.pipes.rest();
            return true;
        }
        self.pipes.tell(side, &Refusal::Read);
        self.pipes.tell(side, &why);
        false
    }

    /// Reports a failed read or write, unless the client left before its last answer.
    fn tell_end(&mut self, outcome: Result<(), Failed>, has_reader: bool)
        ensures { done_at self.new ≡ told_of_end outcome has_reader (done_at self.old) }
    {
        match outcome {
            Err(Failed::Code(Refusal::Write)) if has_reader => {
                self.pipes.tell(Side::Output, &Refusal::Write);
            }
            Err(Failed::Code(Refusal::Read)) => self.pipes.tell(Side::Input, &Refusal::Read),
            Ok(()) | Err(_) => {}
        }
    }
}

impl<T: Files<File = File> + Eprint + Clock + Wait + Copy> Door<
    BufReader<File>,
    BufWriter<AnswerPipe>,
> for PipeDoor<T> {
    fn asks_alone(&self) -> bool
        ensures { result ≡ self.now.asks_alone }
    {
        self.asks_alone
    }

    /// The next client. If a pipe can no longer be opened, or is not a pipe, this is reported, and no more clients come. If there is no memory, the client
    /// finds its pipes closed.
    fn next(&mut self) -> Option<Client>
        ensures came { IsSome result → HasOpened (done_at self.new) }
        ensures none { IsNone result → (done_at self.new ≡ done_at self.old) ⊎ HasGivenUp (done_at self.new) }
    {
        if !self.is_open() {
            return None;
        }
        let rt = *self.pipes.rt();
        for _ in rt.forever() {
            match self.open() {
                Ok(client) => {
                    self.guests.one_came(&rt);
                    return Some(client);
                }
                Err(unserved) => {
                    if !self.goes_on(unserved) {
                        return None;
                    }
                }
            }
        }
        unreachable!()
    }

    /// Closes both pipes, first the one for reading: so whoever sees the other one closed finds no line of this client in it.
    fn ended(
        &mut self,
        reader: BufReader<File>,
        writer: BufWriter<AnswerPipe>,
        outcome: Result<(), Failed>,
    )
        ensures deeds { done_at self.new ≡ told_of_end outcome (writer_inner writer).has_reader (let_out (done_at self.old)) }
    {
        let has_reader = writer.get_ref().has_reader;
        self.pipes.close(Side::Input, reader);
        self.pipes.close(Side::Output, writer);
        self.guests.one_went(self.pipes.rt());
        self.tell_end(outcome, has_reader);
    }
}

/// A value that says whether a name is that of a named pipe.
pub trait TellsPipes {
    /// What it may say of a name.
    ghost tells: { Self → List ℕ → Bool → Type 0 };

    fn is_pipe(&self, name: &str) -> bool
        ensures { Self.tells self.now name.now result };
}

/// The files of a runtime, which may say anything of their names.
#[derive(Clone, Copy)]
pub struct FileNames<'a, R> {
    pub rt: &'a R,
}

impl<R: Files> TellsPipes for FileNames<'_, R> {
    ghost tells = { λ files name is. ⊤ };

    fn is_pipe(&self, name: &str) -> bool {
        match fs::metadata(self.rt, name) {
            Ok(metadata) => metadata.file_type().is_fifo(),
            Err(_) => false,
        }
    }
}

/// Pairs whose names were all said to be those of named pipes.
#[derive(Clone, Copy)]
pub struct SeenPipes<'a, 'w> {
    pairs: &'a [PipePair<'w>],
}

/// Checks that each name is that of a named pipe. The first that is not is reported as a file that cannot be opened (10 of line 0), with its number: 3 for
/// the first pipe, 4 for the next one.
pub fn see_pipes<'a, 'w, P: TellsPipes>(
    told: &P,
    pipes: &'a [PipePair<'w>],
) -> Result<SeenPipes<'a, 'w>, Failed>
    requires { length pipes.now ≤ 60 }
    ensures pairs { IfOk result (λ seen. seen.pairs.now ≡ pipes.now) }
    ensures told { OnOk result (AreTold (P.tells told.now) (names_of pipes.now) (length (names_of pipes.now))) }
    ensures refused { IfErr result (IsOfNoPipe (P.tells told.now) (names_of pipes.now)) }
{
    for number in 0..2 * pipes.len() {
        if let Some(name) = pipe_at(pipes, number) {
            if !told.is_pipe(name) {
                return Err(unopened(FIRST_PIPE + number as u8));
            }
        }
    }
    Ok(SeenPipes { pairs: pipes })
}

/// The door of a pair.
fn door_of<T: Copy + Drop>(
    rt: T,
    alloc: Global,
    pair: &PipePair<'_>,
    are_open: &Arc<Mutex<bool>>,
    guests: &Guests,
) -> Result<PipeDoor<T>, AllocError>
    ensures { IfOk result (λ door. stands_at door ≡ begins_at pair.now) }
{
    let are_open = Arc::try_clone(are_open)?;
    let guests = guests.again()?;
    Ok(PipeDoor {
        pipes: Pipes::new(rt, alloc, pair)?,
        alloc,
        asks_alone: pair.asks_alone,
        are_open,
        guests,
    })
}

/// A door for each of these pairs.
fn all_doors<T: Copy + Drop>(
    rt: T,
    alloc: Global,
    pairs: &[PipePair<'_>],
    are_open: &Arc<Mutex<bool>>,
    guests: &Guests,
) -> Result<Vec<PipeDoor<T>>, AllocError>
    ensures { IfOk result (λ doors. map stands_at doors.items ≡ map begins_at pairs.now) }
{
    let mut doors = Vec::new(alloc);
    for pair in pairs {
        let door = door_of(rt, alloc, pair, are_open, guests)?;
        doors.push(door)?;
    }
    Ok(doors)
}

/// The doors of these pairs, still closed. If there are reports of who comes in, there are reports on the whole server.
pub fn doors_of<T: Copy + Drop>(
    rt: T,
    alloc: Global,
    pipes: SeenPipes<'_, '_>,
    are_told: bool,
) -> Result<Doors<PipeDoor<T>>, AllocError>
    ensures doors { IfOk result (λ doors. map stands_at doors.doors.items ≡ map begins_at pipes.entry.pairs.now) }
{
    let are_open = Arc::new(alloc, Mutex::new(false))?;
    let guests = Guests::new(alloc, are_told)?;
    let doors = all_doors(rt, alloc, pipes.pairs, &are_open, &guests)?;
    Ok(Doors {
        doors,
        are_open,
        guests,
    })
}
