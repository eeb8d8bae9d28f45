//! Why calls on files fail.
ghost use Rattle.std.specs.Prelude.{◌≡◌};
ghost use Rattle.filedisk.specs.Causes.{cause_of};

use std::fmt::{self, Display};
use std::io::{self, ErrorKind};

/// Why the system failed a call: the kind of its error, and the system's number for it, if there is one.
#[derive(Clone, Copy, Debug, PartialEq, Eq)]
pub struct Cause {
    pub kind: ErrorKind,
    pub number: Option<i32>,
}

impl Cause {
    /// The cause in this error.
    pub fn of(error: &io::Error) -> Cause
        ensures { result ≡ cause_of error.now }
    {
        Cause {
            kind: error.kind(),
            number: error.raw_os_error(),
        }
    }
}

impl Display for Cause {
    fn fmt<W: fmt::Write>(&self, f: &mut fmt::Formatter<W>) -> fmt::Result {
        match (self.kind, self.number) {
            (ErrorKind::StorageFull, _) => f.write_str("no space left on device"),
            (_, Some(number)) => write!(f, "{}", io::Error::from_raw_os_error(number)),
            (kind, None) => write!(f, "{kind}"),
        }
    }
}

/// A call on an open file.
#[derive(Clone, Copy, Debug, PartialEq, Eq)]
pub enum Call {
    Size,
    Read,
    Write,
    Lengthen,
    Sync,
}

/// The report on a call that failed.
fn told_of(call: Call) -> &'static str {
    match call {
        Call::Size => "its length can't be told",
        Call::Read => "a read failed",
        Call::Write => "a write failed",
        Call::Lengthen => "it can't be made longer",
        Call::Sync => "a sync failed",
    }
}

/// A call that failed, and why.
#[derive(Clone, Copy, Debug, PartialEq, Eq)]
pub struct Failure {
    pub call: Call,
    pub cause: Cause,
}

impl Failure {
    /// The failure of a call with this error.
    pub fn of(call: Call, error: &io::Error) -> Failure
        ensures { result ≡ record { call = call; cause = cause_of error.now } }
    {
        Failure {
            call,
            cause: Cause::of(error),
        }
    }
}

impl Display for Failure {
    fn fmt<W: fmt::Write>(&self, f: &mut fmt::Formatter<W>) -> fmt::Result {
        write!(f, "{}: {}", told_of(self.call), self.cause)
    }
}
