//! A disk over a file.
ghost use Rattle.std.specs.Prelude.{◌≡◌};
ghost use Rattle.disk.specs.Contents.{failures_after};

use crate::causes::Failure;
use crate::system::FileLock;
use crate::whole::{read_whole, write_whole};
use crate::{RawFile, SystemFile};
use disk::{Disk, DiskError};
use std::io;

/// A disk in an open file. A read or write that the file does only in part is completed, or it fails. Each call that fails is counted, up to `u64::MAX`.
///
/// It keeps the disk model if its file keeps the model of a file. No proof can know what a file of the system does: that it is honest is a premise of what
/// is said of contents and stops.
#[derive(Drop)]
pub struct FileDisk<F> {
    file: F,
    failures: u64,
}

/// The outcome. A failure is counted.
fn counted<T>(failures: &mut u64, outcome: Result<T, DiskError>) -> Result<T, DiskError>
    ensures outcome { result ≡ outcome }
    ensures counted { failures.new ≡ failures_after outcome failures.old }
{
    if outcome.is_err() {
        *failures = failures.saturating_add(1);
    }
    outcome
}

impl<F> FileDisk<F> {
    ghost use Rattle.filedisk.specs.Files.{file_of, failures_of};

    /// No call has failed yet.
    pub fn new(file: F) -> Self
        ensures file { file_of result ≡ file }
        ensures failures { failures_of result ≡ 0 }
    {
        FileDisk { file, failures: 0 }
    }

    /// How many calls have failed.
    pub fn failed_calls(&self) -> u64
        ensures { result ≡ failures_of self.now }
    {
        self.failures
    }
}

impl FileDisk<SystemFile> {
    ghost use Rattle.std.specs.Prelude.{◌∷◌, IfOk};
    ghost use Rattle.filedisk.specs.Noted.{Duplicate, Done};
    ghost use Rattle.filedisk.specs.SystemFiles.{calls_of, calls_by};

    /// The lock of the disk's file, which may be released before the disk is dropped. It is still held. The only error is that the system gives no further
    /// handle.
    pub fn lock(&self) -> io::Result<FileLock>
        ensures { IfOk result (λ lock. calls_by lock ≡ (Duplicate, Done) ∷ calls_of self.now) }
    {
        self.file.held()
    }

    /// The last call on the file that failed.
    pub fn last_failure(&self) -> Option<Failure> {
        self.file.failure()
    }
}

impl<F: RawFile> Disk for FileDisk<F> {
    ghost use Rattle.filedisk.specs.Whole.{FileTakes};

    ghost content = { λ disk. F.content disk.file };

    ghost left = { λ disk. F.left disk.file };

    ghost moment = { λ disk. F.moment disk.file };

    ghost left_since = { λ disk. F.left_since disk.file };

    ghost failures = { λ disk. disk.failures };

    ghost honest = { λ disk. F.honest disk.file };

    ghost takes = { FileTakes F.calls };

    fn len(&mut self) -> Result<u64, DiskError> {
        let outcome = match self.file.size() {
            Ok(size) => Ok(size),
            Err(_) => Err(DiskError),
        };
        counted(&mut self.failures, outcome)
    }

    fn read(&mut self, at: u64, into: &mut [u8]) -> Result<(), DiskError> {
        let outcome = read_whole(&mut self.file, at, into);
        counted(&mut self.failures, outcome)
    }

    fn write_at(&mut self, at: u64, bytes: &[u8]) -> Result<(), DiskError> {
        let outcome = write_whole(&mut self.file, at, bytes);
        counted(&mut self.failures, outcome)
    }

    fn sync(&mut self) -> Result<(), DiskError> {
        let outcome = match self.file.sync() {
            Ok(()) => Ok(()),
            Err(_) => Err(DiskError),
        };
        counted(&mut self.failures, outcome)
    }

    ghost leaves_content = { λ disk. F.leaves_content disk.file };

    ghost counts_now = { λ disk. F.counts_now disk.file };

    ghost only_now = { λ disk. F.only_now disk.file };
}
