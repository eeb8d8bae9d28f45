//! The shell's files: those of its runtime, with relative names in the shell's folder.
use crate::shell::Shell;
use crate::streams::append;
use std::alloc::Allocator;
use std::fs::{File, Metadata, OpenOptions};
use std::io;
use std::io::ErrorKind;
use std::path::PathBuf;
use std::rt::Files;

impl<R: AllocGlobal> Shell<'_, R> {
    /// The whole name of a file.
    fn at(&self, path: &str) -> io::Result<PathBuf> {
        let mut whole = PathBuf::from_str(self.rt.alloc(), self.folder.as_str())?;
        whole.push(path)?;
        Ok(whole)
    }
}

/// How a file is opened.
fn kind_of(how: &OpenOptions) -> &'static str {
    if how.asks_create_new() {
        "new"
    } else if how.asks_write() {
        "write"
    } else {
        "read"
    }
}

impl<R: AllocGlobal + Files<File = File>> Files for Shell<'_, R> {
    type File = File;

    type Dir = R::Dir;

    fn open_file(&self, how: &OpenOptions, path: &str) -> io::Result<File> {
        append(&self.opened, kind_of(how))?;
        append(&self.opened, " ")?;
        append(&self.opened, path)?;
        append(&self.opened, "\n")?;
        if path == self.absent {
            return Err(io::Error::from(ErrorKind::PermissionDenied));
        }
        let file = self.rt.open_file(how, self.at(path)?.as_str())?;
        if self.blunt && how.asks_create_new() {
            return File::open(self.rt, self.at(path)?.as_str());
        }
        Ok(file)
    }

    fn open_dir(&self, path: &str) -> io::Result<R::Dir> {
        self.rt.open_dir(self.at(path)?.as_str())
    }

    fn metadata(&self, path: &str) -> io::Result<Metadata> {
        self.rt.metadata(self.at(path)?.as_str())
    }

    fn symlink_metadata(&self, path: &str) -> io::Result<Metadata> {
        self.rt.symlink_metadata(self.at(path)?.as_str())
    }

    fn copy(&self, from: &str, to: &str) -> io::Result<u64> {
        self.rt.copy(self.at(from)?.as_str(), self.at(to)?.as_str())
    }

    fn rename(&self, from: &str, to: &str) -> io::Result<()> {
        self.rt
            .rename(self.at(from)?.as_str(), self.at(to)?.as_str())
    }

    fn remove_file(&self, path: &str) -> io::Result<()> {
        self.rt.remove_file(self.at(path)?.as_str())
    }

    fn create_dir(&self, path: &str) -> io::Result<()> {
        self.rt.create_dir(self.at(path)?.as_str())
    }

    fn remove_dir(&self, path: &str) -> io::Result<()> {
        self.rt.remove_dir(self.at(path)?.as_str())
    }

    fn remove_dir_all<B: Allocator>(&self, alloc: B, path: &str) -> io::Result<()> {
        self.rt.remove_dir_all(alloc, self.at(path)?.as_str())
    }

    fn read_link<B: Allocator>(&self, alloc: B, path: &str) -> io::Result<PathBuf<B>> {
        self.rt.read_link(alloc, self.at(path)?.as_str())
    }
}
