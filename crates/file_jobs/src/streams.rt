//! The standard streams, held before any file is opened.
use std::fs::File;
use std::io;
use std::rt::Files;

/// A file that reads as empty, and that refuses each write if it was opened for reading only.
const NULL: &str = "/dev/null";

/// The null device, opened as often as there are standard streams. It is lent to whatever opens a file.
#[derive(Drop)]
pub struct Streams {
    _files: [File; 3],
}

/// Makes sure that the numbers of the standard streams are in use as long as the result exists: the null device is opened three times, for reading only,
/// and the system gives each file the lowest free number. So a standard input that was closed reads as empty, and a write to a closed output fails. Without
/// this the next file that is opened would be the output.
pub fn hold_streams<R: Files<File = File>>(rt: &R) -> io::Result<Streams> {
    let first = File::open(rt, NULL)?;
    let second = File::open(rt, NULL)?;
    let third = File::open(rt, NULL)?;
    Ok(Streams {
        _files: [first, second, third],
    })
}
