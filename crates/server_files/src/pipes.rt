//! The pipes of a pair, and what a door does with them. No clause sees the system: whether each method here does what it notes has to be read here, and only
//! here.
ghost use Rattle.std.specs.Prelude.{◌≡◌, Bool, true, false, Ok, IfOk, IfErr, ⊤};
ghost use Rattle.server_files.specs.Deeds.{with_deed};
ghost use Rattle.server_files.specs.Doors.{pipe_name_of, none_done, HaveSameNames};

use crate::deeds::{Deed, Deeds, Side};
use filedisk::{OpenError, why_unopened};
use progress::ToldName;
use std::alloc::{AllocError, Global};
use std::fmt::Display;
use std::fs::{self, File, OpenOptions};
use std::io::{self, ErrorKind};
use std::os::unix::fs::FileTypeExt;
use std::rt::Files;
use std::thread;
use std::time::{Clock, Duration};
use thiserror::Error;
use words::PipePair;

/// For how many milliseconds a door rests that finds no memory for a client.
const REST: u64 = 100;

/// Why a pipe is not served.
#[derive(Clone, Copy, Debug, PartialEq, Eq, Error)]
pub enum Why {
    /// The system no longer opens it.
    #[error("{0}")]
    Unopened(OpenError),
    /// What was opened is not a pipe.
    #[error("it is no named pipe")]
    NoPipe,
    /// There is no memory for a client.
    #[error("out of memory")]
    NoMemory,
}

/// Why a client could not come in, and because of which pipe.
#[derive(Clone, Copy)]
pub struct Unserved {
    pub side: Side,
    pub why: Why,
}

/// Why a pipe is not served, given the system's error when opening it.
fn why_unserved(error: &io::Error) -> Why
    ensures { result ≡ Why.NoPipe → ⊥ }
{
    match error.kind() {
        ErrorKind::OutOfMemory => Why::NoMemory,
        _ => Why::Unopened(why_unopened(error)),
    }
}

/// An open file that says whether it is a named pipe.
pub trait TellsPipe {
    /// What it may say.
    ghost tells: { Self → Bool → Type 0 };

    fn is_pipe(&self) -> bool
        ensures { Self.tells self.now result };
}

/// A file of the system, which may say anything.
impl TellsPipe for File {
    ghost tells = { λ file is. ⊤ };

    fn is_pipe(&self) -> bool {
        match self.metadata() {
            Ok(metadata) => metadata.file_type().is_fifo(),
            Err(_) => false,
        }
    }
}

/// What was opened as a pipe of a pair, if it says itself that it is a named pipe: by now its name may belong to anything.
fn pipe_of<F: TellsPipe + Drop>(side: Side, opened: io::Result<F>) -> Result<F, Unserved>
    ensures pipe { IfOk result (λ pipe. (opened ≡ Ok pipe) × F.tells pipe true) }
    ensures none { IfErr result (λ unserved. unserved.why ≡ Why.NoPipe → (file : _) × (opened ≡ Ok file) × F.tells file false) }
    ensures side { IfErr result (λ unserved. unserved.side ≡ side) }
{
    let file = match opened {
        Ok(file) => file,
        Err(error) => {
            return Err(Unserved {
                side,
                why: why_unserved(&error),
            });
        }
    };
    if !file.is_pipe() {
        return Err(Unserved {
            side,
            why: Why::NoPipe,
        });
    }
    Ok(file)
}

/// Reports on standard error why a session on a pipe ended, or why no more clients come through it: `roadmark: NAME: CODE Name`, or a reason in its place.
fn tell<R: Eprint, D: Display>(rt: &R, name: &str, what: &D) {
    let name = ToldName { name };
    let _ = eprintln!(rt; "roadmark: {name}: {what}");
}

/// The named pipes of a pair: the client writes its lines into the one and reads its answers from the other.
#[derive(Drop)]
pub struct Pipes<T> {
    rt: T,
    input: String,
    output: String,
    deeds: Deeds,
}

impl<T: Copy + Drop> Pipes<T> {
    /// The pipes of a pair. Nothing was done with them yet.
    pub fn new(rt: T, alloc: Global, pair: &PipePair<'_>) -> Result<Pipes<T>, AllocError>
        ensures input { IfOk result (λ pipes. pipe_name_of Side.Input pipes ≡ pair.now.input.now) }
        ensures output { IfOk result (λ pipes. pipe_name_of Side.Output pipes ≡ pair.now.output.now) }
        ensures deeds { IfOk result (λ pipes. pipes.deeds ≡ none_done) }
    {
        let input = String::from_str(alloc, pair.input)?;
        let output = String::from_str(alloc, pair.output)?;
        Ok(Pipes {
            rt,
            input,
            output,
            deeds: Deeds {
                last: Deed::Nothing,
                before: Deed::Nothing,
                earlier: Deed::Nothing,
            },
        })
    }
}

impl<T> Pipes<T> {
    /// The runtime that opens them.
    pub fn rt(&self) -> &T {
        &self.rt
    }

    /// The name of a pipe.
    fn name(&self, side: Side) -> &str
        ensures { result.now ≡ pipe_name_of side self.now }
    {
        match side {
            Side::Input => self.input.as_str(),
            Side::Output => self.output.as_str(),
        }
    }

    /// Closes a pipe.
    pub fn close<F: Drop>(&mut self, side: Side, opened: F)
        ensures deeds { self.new.deeds ≡ with_deed (Deed.Close side) self.old.deeds }
        ensures names { HaveSameNames self.old self.new }
    {
        self.deeds = self.deeds.then(Deed::Close(side));
        drop(opened);
    }
}

impl<T: Files<File = File>> Pipes<T> {
    /// Opens a pipe for reading or for writing, as it is one of the pair. It waits until a client has opened it too. This makes and writes nothing.
    pub fn open(&mut self, side: Side) -> Result<File, Unserved>
        ensures deeds { self.new.deeds ≡ with_deed (Deed.Open side) self.old.deeds }
        ensures names { HaveSameNames self.old self.new }
        ensures side { IfErr result (λ unserved. unserved.side ≡ side) }
    {
        self.deeds = self.deeds.then(Deed::Open(side));
        let opened = match side {
            Side::Input => fs::open(&self.rt, self.name(side)),
            Side::Output => OpenOptions::new()
                .write(true)
                .open(&self.rt, self.name(side)),
        };
        pipe_of(side, opened)
    }
}

impl<T: Eprint> Pipes<T> {
    /// Reports this about a pipe, as `tell`.
    pub fn tell<D: Display>(&mut self, side: Side, what: &D)
        ensures deeds { self.new.deeds ≡ with_deed (Deed.Tell side) self.old.deeds }
        ensures names { HaveSameNames self.old self.new }
    {
        self.deeds = self.deeds.then(Deed::Tell(side));
        tell(&self.rt, self.name(side), what);
    }
}

impl<T: Clock> Pipes<T> {
    /// Waits for a while.
    pub fn rest(&mut self)
        ensures deeds { self.new.deeds ≡ with_deed Deed.Rest self.old.deeds }
        ensures names { HaveSameNames self.old self.new }
    {
        self.deeds = self.deeds.then(Deed::Rest);
        thread::sleep(&self.rt, Duration::from_millis(REST));
    }
}
