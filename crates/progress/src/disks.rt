//! A disk that reports how far a job has come. It passes every call on to the disk that it wraps.
ghost use Rattle.std.specs.Prelude.{◌≡◌};
ghost use Rattle.progress.specs.Inside.{disk_inside};

use crate::notes::Progress;
use disk::{Disk, DiskError};
use filedisk::{Failure, FileDisk, SystemFile};
use std::fmt::{self, Display};
use std::time::Clock;

/// The bytes of a page.
const PAGE: u64 = 4096;

/// Which page of a store's file was read last, and of how many, if that is known.
#[derive(Clone, Copy)]
struct PageRead {
    page: u64,
    of: Option<u64>,
}

impl Display for PageRead {
    fn fmt<W: fmt::Write>(&self, f: &mut fmt::Formatter<W>) -> fmt::Result {
        match self.of {
            Some(of) => write!(f, "page {} of {of} read", self.page),
            None => write!(f, "page {} read", self.page),
        }
    }
}

/// How many pages of a store's file were written.
#[derive(Clone, Copy)]
struct PagesWritten {
    bytes: u64,
}

impl Display for PagesWritten {
    fn fmt<W: fmt::Write>(&self, f: &mut fmt::Formatter<W>) -> fmt::Result {
        write!(f, "{} pages written", self.bytes / PAGE)
    }
}

/// A disk that tells which of its calls failed last, and why.
pub trait TellsFailure {
    fn failure(&self) -> Option<Failure>;
}

impl TellsFailure for FileDisk<SystemFile> {
    fn failure(&self) -> Option<Failure> {
        self.last_failure()
    }
}

/// A disk that reports which page was read, and how many were written.
#[derive(Drop)]
pub struct TellingDisk<'a, R, D> {
    progress: &'a Progress<'a, R>,
    name: &'a str,
    pages: Option<u64>,
    written: PagesWritten,
    disk: D,
}

impl<'a, R, D> TellingDisk<'a, R, D> {
    /// Nothing is read yet, and nothing written.
    pub fn new(progress: &'a Progress<'a, R>, name: &'a str, disk: D) -> TellingDisk<'a, R, D>
        ensures inside { disk_inside result ≡ disk }
    {
        TellingDisk {
            progress,
            name,
            pages: None,
            written: PagesWritten { bytes: 0 },
            disk,
        }
    }

    /// The disk inside.
    pub fn disk(&self) -> &D
        ensures { result.now ≡ disk_inside self.now }
    {
        &self.disk
    }
}

impl<R: AllocGlobal, D: TellsFailure> TellingDisk<'_, R, D> {
    /// Keeps why a call failed, if it did. If it was not the system's failure, the file was too short.
    fn keep_failure<T>(&self, answer: &Result<T, DiskError>) {
        match self.disk.failure() {
            _ if answer.is_ok() => {}
            Some(failure) => self.progress.keep(self.name, &failure),
            None => self.progress.keep(self.name, &"it ends too early"),
        }
    }
}

impl<R: AllocGlobal + Clock + Eprint, D: Disk + TellsFailure> Disk for TellingDisk<'_, R, D> {
    ghost content = { λ disk. D.content disk.disk };

    ghost left = { λ disk. D.left disk.disk };

    ghost moment = { λ disk. D.moment disk.disk };

    ghost left_since = { λ disk. D.left_since disk.disk };

    ghost failures = { λ disk. D.failures disk.disk };

    ghost honest = { λ disk. D.honest disk.disk };

    ghost takes = { λ old call ok new. D.takes old.disk call ok new.disk };

    fn len(&mut self) -> Result<u64, DiskError> {
        let answer = self.disk.len();
        if let Ok(length) = &answer {
            self.pages = Some(*length / PAGE);
        }
        self.keep_failure(&answer);
        answer
    }

    fn read(&mut self, at: u64, into: &mut [u8]) -> Result<(), DiskError> {
        let answer = self.disk.read(at, into);
        let how_far = PageRead {
            page: at.saturating_add(into.len() as u64) / PAGE,
            of: self.pages,
        };
        self.progress.tell_progress(self.name, &how_far);
        self.keep_failure(&answer);
        answer
    }

    fn write_at(&mut self, at: u64, bytes: &[u8]) -> Result<(), DiskError> {
        let answer = self.disk.write_at(at, bytes);
        self.written.bytes = self.written.bytes.saturating_add(bytes.len() as u64);
        self.progress.tell_progress(self.name, &self.written);
        self.keep_failure(&answer);
        answer
    }

    fn sync(&mut self) -> Result<(), DiskError> {
        let answer = self.disk.sync();
        self.keep_failure(&answer);
        answer
    }

    ghost leaves_content = { λ disk. D.leaves_content disk.disk };

    ghost counts_now = { λ disk. D.counts_now disk.disk };

    ghost only_now = { λ disk. D.only_now disk.disk };
}
