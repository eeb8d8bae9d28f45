//! A file of the system as a `RawFile`.
ghost use Rattle.std.specs.Prelude.{◌≡◌, ◌≤◌, [], ◌∷◌, true, false, length, IfOk, IsTrue, IsErr};
ghost use Rattle.filedisk.specs.Noted.{Size, Read, Write, Lengthen, SyncAll, SyncData, told_number, done, gave, Makes, MakesSync, has_failed_sync, has_synced_length};

use crate::RawFile;
use crate::causes::{Call, Failure};
use crate::system::{FileLock, NotedFile};
use std::fs::File;
use std::io;
use std::io::ErrorKind;

/// An open file of the system.
///
/// Once a sync has failed, each later one fails and is not made: the system may have forgotten what it had not written. If the length is what it was at a
/// sync of everything that describes the file, a sync only syncs the data.
#[derive(Drop)]
pub struct SystemFile {
    file: NotedFile<File>,
    sync_failed: bool,
    length_synced: bool,
    // The last call that failed.
    failure: Option<Failure>,
    ghost failed: { sync_failed ≡ has_failed_sync file.notes.calls },
    ghost synced: { length_synced ≡ true → has_synced_length file.notes.calls ≡ true },
}

/// How often a call that a signal interrupts is repeated.
const MOST_TRIES: u32 = 1_000_000;

/// Writes once, and repeats the call if a signal interrupts it.
fn write_uninterrupted(file: &mut NotedFile<File>, at: u64, bytes: &[u8]) -> io::Result<usize>
    ensures bound { IfOk result (λ n. n ≤ length bytes.now) }
    ensures made { Makes (Write at bytes.now) (told_number result) file.old.notes.calls file.new.notes.calls }
{
    let mut tries = 0u32;
    while tries < MOST_TRIES {
        match file.write(at, bytes) {
            Err(error) if error.kind() == ErrorKind::Interrupted => tries += 1,
            answer => return answer,
        }
    }
    file.write(at, bytes)
}

/// Reads once, and repeats the call if a signal interrupts it.
fn read_uninterrupted(file: &mut NotedFile<File>, at: u64, into: &mut [u8]) -> io::Result<usize>
    ensures bound { IfOk result (λ n. n ≤ length into.old) }
    ensures made { Makes (Read at (length into.old)) (gave into.new result) file.old.notes.calls file.new.notes.calls }
{
    let mut tries = 0u32;
    while tries < MOST_TRIES {
        match file.read(at, into) {
            Err(error) if error.kind() == ErrorKind::Interrupted => tries += 1,
            answer => return answer,
        }
    }
    file.read(at, into)
}

/// The answer. Its failure is kept.
fn kept<T>(failure: &mut Option<Failure>, call: Call, answer: io::Result<T>) -> io::Result<T>
    ensures { result ≡ answer }
{
    if let Err(error) = &answer {
        *failure = Some(Failure::of(call, error));
    }
    answer
}

impl SystemFile {
    ghost use Rattle.filedisk.specs.Noted.{Duplicate, Done};
    ghost use Rattle.filedisk.specs.SystemFiles.{calls_made, calls_by};

    /// A file of which these calls have been made, with no sync that failed.
    pub(crate) fn new(file: NotedFile<File>) -> SystemFile
        requires { has_failed_sync (calls_made file) ≡ false }
        ensures { result.file.notes.calls ≡ calls_made file }
    {
        SystemFile {
            file,
            sync_failed: false,
            length_synced: false,
            failure: None,
        }
    }

    /// The last call on the file that failed.
    pub fn failure(&self) -> Option<Failure>
        ensures { result ≡ self.now.failure }
    {
        self.failure
    }

    /// The file's lock.
    pub(crate) fn held(&self) -> io::Result<FileLock>
        ensures { IfOk result (λ lock. calls_by lock ≡ (Duplicate, Done) ∷ calls_made self.now.file) }
    {
        self.file.held()
    }
}

// No clause can say which bytes a file of the system has, so nothing is promised of it here: that it is honest is a premise.
impl RawFile for SystemFile {
    ghost calls = { λ file. file.file.notes.calls };

    ghost content = { λ _. [] };

    ghost left = { λ _ _. ⊥ };

    ghost moment = { λ _. 0 };

    ghost left_since = { λ _ _ _. ⊥ };

    ghost honest = { λ _. ⊥ };

    fn size(&mut self) -> io::Result<u64> {
        let answer = self.file.size();
        kept(&mut self.failure, Call::Size, answer)
    }

    fn read_some(&mut self, at: u64, into: &mut [u8]) -> io::Result<usize> {
        let answer = read_uninterrupted(&mut self.file, at, into);
        kept(&mut self.failure, Call::Read, answer)
    }

    fn lengthen(&mut self, size: u64) -> io::Result<()> {
        self.length_synced = false;
        let answer = self.file.lengthen(size);
        kept(&mut self.failure, Call::Lengthen, answer)
    }

    fn write_some(&mut self, at: u64, bytes: &[u8]) -> io::Result<usize> {
        let answer = write_uninterrupted(&mut self.file, at, bytes);
        kept(&mut self.failure, Call::Write, answer)
    }

    fn sync(&mut self) -> io::Result<()> {
        if self.sync_failed {
            return Err(io::Error::from(ErrorKind::BrokenPipe));
        }
        let answer = if self.length_synced {
            self.file.sync_data()
        } else {
            self.file.sync_all()
        };
        match answer {
            Ok(()) => self.length_synced = true,
            Err(_) => self.sync_failed = true,
        }
        kept(&mut self.failure, Call::Sync, answer)
    }

    ghost leaves_content = { λ _ never. absurd never };

    ghost counts_now = { λ _ _ _ never _ _. absurd never };

    ghost only_now = { λ _ _ never _. absurd never };
}
