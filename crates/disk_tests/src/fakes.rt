//! Files for tests: one that tells which syncs it got, and a runtime's, where a name opens another file.
use std::alloc::{Allocator, Global};
use std::cell::Cell;
use std::fs::{File, Metadata, OpenFile, OpenOptions};
use std::io;
use std::io::ErrorKind;
use std::path::PathBuf;
use std::rt::Files;

/// How often a file was synced.
#[derive(Drop)]
pub struct Syncs {
    /// Of the data, and of all that tells of the file.
    all: Cell<u32>,
    /// Of the data.
    data: Cell<u32>,
}

impl Syncs {
    pub fn new() -> Syncs {
        Syncs {
            all: Cell::new(0),
            data: Cell::new(0),
        }
    }

    /// The syncs of all, and those of the data.
    pub fn counts(&self) -> (u32, u32) {
        (self.all.get(), self.data.get())
    }
}

/// A file that tells its syncs, and does nothing else.
#[derive(Drop)]
pub struct Told<'a>(pub &'a Syncs);

fn count_one(calls: &Cell<u32>) {
    calls.set(calls.get().saturating_add(1));
}

impl<'a> OpenFile for Told<'a> {
    fn metadata(&self) -> io::Result<Metadata> {
        Err(io::Error::from(ErrorKind::Unsupported))
    }

    fn set_len(&self, _size: u64) -> io::Result<()> {
        Err(io::Error::from(ErrorKind::Unsupported))
    }

    fn sync_all(&self) -> io::Result<()> {
        count_one(&self.0.all);
        Ok(())
    }

    fn sync_data(&self) -> io::Result<()> {
        count_one(&self.0.data);
        Ok(())
    }
}

/// The files of a runtime, where what is opened by one name is another file.
#[derive(Drop)]
pub struct Swapped<'a, R> {
    rt: &'a R,
    name: &'a str,
    other: &'a str,
    /// How many files were opened.
    pub opened: Cell<u32>,
}

impl<'a, R> Swapped<'a, R> {
    pub fn new(rt: &'a R, name: &'a str, other: &'a str) -> Swapped<'a, R> {
        Swapped {
            rt,
            name,
            other,
            opened: Cell::new(0),
        }
    }
}

impl<'a, R: AllocGlobal> Alloc for Swapped<'a, R> {
    type A = Global;

    fn alloc(&self) -> Global {
        self.rt.alloc()
    }
}

impl<'a, R: Files<File = File>> Files for Swapped<'a, R> {
    type File = File;

    type Dir = R::Dir;

    fn open_file(&self, how: &OpenOptions, path: &str) -> io::Result<File> {
        count_one(&self.opened);
        let file = self.rt.open_file(how, path)?;
        if path == self.name {
            return File::open(self.rt, self.other);
        }
        Ok(file)
    }

    fn open_dir(&self, path: &str) -> io::Result<R::Dir> {
        self.rt.open_dir(path)
    }

    fn metadata(&self, path: &str) -> io::Result<Metadata> {
        self.rt.metadata(path)
    }

    fn symlink_metadata(&self, path: &str) -> io::Result<Metadata> {
        self.rt.symlink_metadata(path)
    }

    fn copy(&self, from: &str, to: &str) -> io::Result<u64> {
        self.rt.copy(from, to)
    }

    fn rename(&self, from: &str, to: &str) -> io::Result<()> {
        self.rt.rename(from, to)
    }

    fn remove_file(&self, path: &str) -> io::Result<()> {
        self.rt.remove_file(path)
    }

    fn create_dir(&self, path: &str) -> io::Result<()> {
        self.rt.create_dir(path)
    }

    fn remove_dir(&self, path: &str) -> io::Result<()> {
        self.rt.remove_dir(path)
    }

    fn remove_dir_all<B: Allocator>(&self, alloc: B, path: &str) -> io::Result<()> {
        self.rt.remove_dir_all(alloc, path)
    }

    fn read_link<B: Allocator>(&self, alloc: B, path: &str) -> io::Result<PathBuf<B>> {
        self.rt.read_link(alloc, path)
    }
}
