//! The calls that were made of a file of the system. Only clauses use them.
ghost use Rattle.std.specs.Prelude.{◌≡◌, List, [], ◌∷◌};
ghost use Rattle.std.specs.Borrow.{ftrue};
ghost use Rattle.filedisk.specs.Noted.{NotedCall, noted};

use std::io::ErrorKind;
use std::marker::Model;

/// Who else may have the file open at the same time, for a disk.
#[derive(Clone, Copy, Drop)]
pub(crate) enum Share {
    /// Nobody.
    Alone,
    /// Those who read it.
    WithReaders,
}

/// A call, with its arguments.
#[derive(Clone, Copy, Drop)]
pub(crate) enum AskedOfFile<'a> {
    Size,
    Read { at: u64, count: usize },
    Write { at: u64, bytes: &'a [u8] },
    Lengthen { size: u64 },
    SyncAll,
    SyncData,
    Lock(Share),
    SyncFolder,
    /// Another handle of the file is made. The list of its calls continues there.
    Duplicate,
    Unlock,
}

/// What a call answered.
#[derive(Clone, Copy, Drop)]
pub(crate) enum NotedAnswer<'a> {
    Done,
    Told(u64),
    Gave(&'a [u8]),
    Failed(ErrorKind),
}

/// A call with its answer.
#[derive(Clone, Copy, Drop)]
pub(crate) struct Note<'a> {
    pub(crate) asked: AskedOfFile<'a>,
    pub(crate) answer: NotedAnswer<'a>,
}

/// The calls that were made, the newest first. It takes no bytes, and its methods do nothing at run time.
#[derive(Drop)]
pub(crate) struct Notes {
    pub ghost calls: { List NotedCall },
}

impl Model for Notes {
    ghost also_owns = { λ _. ftrue };
}

impl Notes {
    /// No call yet.
    pub(crate) fn new() -> Notes
        ensures { result.calls ≡ [] }
    {
        Notes {}
    }

    /// One call more.
    pub(crate) fn then(&self, _note: &Note<'_>) -> Notes
        ensures { result.calls ≡ noted _note.now ∷ self.now.calls }
    {
        Notes {}
    }
}
