//! The system's calls on an open file, each noted with its answer. No clause can see the system: only by reading this file can one check that each function
//! here makes the call that it notes, of this file. The functions take any type of file, so that tests can use one that reports which calls it got.
ghost use Rattle.std.specs.Prelude.{◌≡◌, ◌≤◌, [], ◌∷◌, length, IfOk};
ghost use Rattle.filedisk.specs.Noted.{Size, Read, Write, Lengthen, SyncAll, SyncData, Lock, SyncFolder, Duplicate, Unlock, Done, file_call_of, outcome_of, told_number, done, gave};

use crate::notes::{AskedOfFile, Note, NotedAnswer, Notes, Share};
use std::fs::{File, OpenFile};
use std::io;
use std::os::unix::fs::FileExt;

/// An open file of the system, with the calls that were made of it.
#[derive(Drop)]
pub struct NotedFile<F> {
    file: F,
    notes: Notes,
}

/// The lock of a file that a disk has open. It may be released before the disk is dropped: once nothing more is read from the disk or written to it, others
/// need not wait for its end. It is another handle of the file; if it is dropped, the lock stays as it is. Its calls are noted for this handle, and not for
/// the disk's.
#[derive(Drop)]
pub struct FileLock {
    file: NotedFile<File>,
}

impl FileLock {
    ghost use Rattle.filedisk.specs.SystemFiles.{calls_by};

    /// Releases the lock: from then on others may lock the file.
    pub fn let_go(&mut self) -> io::Result<()>
        ensures { calls_by self.new ≡ (Unlock, done result) ∷ calls_by self.old }
    {
        self.file.unlock()
    }
}

/// The answer of a call that returns nothing.
pub(crate) fn as_done<'a>(answer: &io::Result<()>) -> NotedAnswer<'a>
    ensures { outcome_of result ≡ done answer.now }
{
    match answer {
        Ok(()) => NotedAnswer::Done,
        Err(error) => NotedAnswer::Failed(error.kind()),
    }
}

impl<F> NotedFile<F> {
    ghost use Rattle.filedisk.specs.SystemFiles.{calls_made};

    /// A file of which no call has been made.
    pub fn new(file: F) -> NotedFile<F>
        ensures { calls_made result ≡ [] }
    {
        NotedFile {
            file,
            notes: Notes::new(),
        }
    }

    fn note(&mut self, asked: AskedOfFile<'_>, answer: NotedAnswer<'_>)
        ensures { self.new.notes.calls ≡ (file_call_of asked.entry, outcome_of answer.entry) ∷ self.old.notes.calls }
    {
        self.notes = self.notes.then(&Note { asked, answer });
    }
}

impl<F: OpenFile> NotedFile<F> {
    ghost use Rattle.filedisk.specs.SystemFiles.{calls_made};

    /// Whether it is a regular file, and not a folder, device or pipe. This call is not noted, since it does not concern the content.
    pub(crate) fn is_file(&self) -> io::Result<bool> {
        let metadata = self.file.metadata()?;
        Ok(metadata.is_file())
    }

    /// The file's length.
    pub(crate) fn size(&mut self) -> io::Result<u64>
        ensures { self.new.notes.calls ≡ (Size, told_number result) ∷ self.old.notes.calls }
    {
        let answer = self.file.metadata();
        match answer {
            Ok(metadata) => {
                self.note(AskedOfFile::Size, NotedAnswer::Told(metadata.len()));
                Ok(metadata.len())
            }
            Err(error) => {
                self.note(AskedOfFile::Size, NotedAnswer::Failed(error.kind()));
                Err(error)
            }
        }
    }

    /// Gives the file this length.
    pub(crate) fn lengthen(&mut self, size: u64) -> io::Result<()>
        ensures { self.new.notes.calls ≡ (Lengthen size, done result) ∷ self.old.notes.calls }
    {
        let answer = self.file.set_len(size);
        self.note(AskedOfFile::Lengthen { size }, as_done(&answer));
        answer
    }

    /// Syncs the data, and everything that describes the file.
    pub fn sync_all(&mut self) -> io::Result<()>
        ensures { calls_made self.new ≡ (SyncAll, done result) ∷ calls_made self.old }
    {
        let answer = self.file.sync_all();
        self.note(AskedOfFile::SyncAll, as_done(&answer));
        answer
    }

    /// Syncs the data, and what is needed to read it again.
    pub fn sync_data(&mut self) -> io::Result<()>
        ensures { calls_made self.new ≡ (SyncData, done result) ∷ calls_made self.old }
    {
        let answer = self.file.sync_data();
        self.note(AskedOfFile::SyncData, as_done(&answer));
        answer
    }

    /// Syncs the folder of the file.
    pub fn sync_folder(&mut self, folder: &F) -> io::Result<()>
        ensures { calls_made self.new ≡ (SyncFolder, done result) ∷ calls_made self.old }
    {
        let answer = folder.sync_all();
        self.note(AskedOfFile::SyncFolder, as_done(&answer));
        answer
    }
}

impl<F: FileExt> NotedFile<F> {
    /// Reads once, at this offset.
    pub(crate) fn read(&mut self, at: u64, into: &mut [u8]) -> io::Result<usize>
        ensures bound { IfOk result (λ n. n ≤ length into.old) }
        ensures noted { self.new.notes.calls ≡ (Read at (length into.old), gave into.new result) ∷ self.old.notes.calls }
    {
        let count = into.len();
        let answer = self.file.read_at(into, at);
        match answer {
            Ok(given) => self.note(
                AskedOfFile::Read { at, count },
                NotedAnswer::Gave(&into[..given]),
            ),
            Err(error) => self.note(
                AskedOfFile::Read { at, count },
                NotedAnswer::Failed(error.kind()),
            ),
        }
        answer
    }

    /// Writes once, at this offset.
    pub(crate) fn write(&mut self, at: u64, bytes: &[u8]) -> io::Result<usize>
        ensures bound { IfOk result (λ n. n ≤ length bytes.now) }
        ensures noted { self.new.notes.calls ≡ (Write at bytes.now, told_number result) ∷ self.old.notes.calls }
    {
        let answer = self.file.write_at(bytes, at);
        match answer {
            Ok(count) => self.note(
                AskedOfFile::Write { at, bytes },
                NotedAnswer::Told(count as u64),
            ),
            Err(error) => self.note(
                AskedOfFile::Write { at, bytes },
                NotedAnswer::Failed(error.kind()),
            ),
        }
        answer
    }
}

impl NotedFile<File> {
    /// Locks the file for this opening, until it is closed or the lock is released, and waits for nobody. Two openings, of one program or of two, do not
    /// lock it at the same time unless both share it.
    pub(crate) fn lock(&mut self, share: Share) -> io::Result<()>
        ensures { self.new.notes.calls ≡ (Lock share, done result) ∷ self.old.notes.calls }
    {
        let locked = match share {
            Share::Alone => self.file.try_lock(),
            Share::WithReaders => self.file.try_lock_shared(),
        };
        let answer = match locked {
            Ok(()) => Ok(()),
            Err(error) => Err(io::Error::from(error)),
        };
        self.note(AskedOfFile::Lock(share), as_done(&answer));
        answer
    }

    /// Releases the lock that this opening of the file has.
    fn unlock(&mut self) -> io::Result<()>
        ensures { self.new.notes.calls ≡ (Unlock, done result) ∷ self.old.notes.calls }
    {
        let answer = self.file.unlock();
        self.note(AskedOfFile::Unlock, as_done(&answer));
        answer
    }

    /// The lock of the file, which may be released before the file is closed.
    pub(crate) fn held(&self) -> io::Result<FileLock>
        ensures { IfOk result (λ lock. lock.file.notes.calls ≡ (Duplicate, Done) ∷ self.now.notes.calls) }
    {
        let file = self.file.try_clone()?;
        let notes = self.notes.then(&Note {
            asked: AskedOfFile::Duplicate,
            answer: NotedAnswer::Done,
        });
        Ok(FileLock {
            file: NotedFile { file, notes },
        })
    }
}
