//! Words on the files of a transcript's folder.
use crate::steps::word;
use filedisk::{FileDisk, OpenError, SystemFile, open_file, open_to_read};
use std::alloc::{AllocError, Global};
use std::fs::{self, File};
use std::io::{self, ErrorKind, PipeReader, PipeWriter};
use std::os::fd::AsRawFd;
use std::os::unix::fs::symlink;
use std::rt::Files;

/// What is held open: a store's file, and a pipe, whose ends are `%` and `%w` in words.
#[derive(Drop)]
pub(crate) struct Held {
    disk: Option<FileDisk<SystemFile>>,
    pipe: Option<(PipeReader, PipeWriter)>,
}

impl Held {
    /// Nothing is.
    pub(crate) fn new() -> Held {
        Held {
            disk: None,
            pipe: None,
        }
    }

    /// The words, in which the names of the pipe's ends stand for `%` and `%w`.
    pub(crate) fn named(&self, alloc: Global, words: &str) -> Result<String, AllocError> {
        let Some((reader, writer)) = &self.pipe else {
            return String::from_str(alloc, words);
        };
        let name = format!(in alloc; "/proc/self/fd/{}", writer.as_raw_fd())?;
        let words = words.replace(alloc, "%w", name.as_str())?;
        let name = format!(in alloc; "/proc/self/fd/{}", reader.as_raw_fd())?;
        words.as_str().replace(alloc, "%", name.as_str())
    }
}

/// Puts bytes, which a line's words after the first spell in hexadecimal digits, into a file from the place on that the first word tells. Answers whether they fit.
fn put_bytes(line: &str, bytes: &mut [u8]) -> bool {
    let mut at: usize = word(line, 0).parse().unwrap_or(usize::MAX);
    for digits in line.split_whitespace().skip(1) {
        let (Some(place), Ok(byte)) = (bytes.get_mut(at), u8::from_str_radix(digits, 16)) else {
            return false;
        };
        *place = byte;
        at = at.wrapping_add(1);
    }
    true
}

/// Changes the file of this path by such lines.
fn change<R: AllocGlobal + Files>(rt: &R, path: &str, lines: &str) -> io::Result<()> {
    let mut bytes = fs::read(rt, path)?;
    for line in lines.lines() {
        if !put_bytes(line, bytes.as_mut_slice()) {
            return Err(io::Error::from(ErrorKind::InvalidData));
        }
    }
    fs::write(rt, path, bytes.as_slice())
}

/// Makes a file of zero bytes.
fn make_zeros<R: AllocGlobal + Files>(rt: &R, path: &str, count: &str) -> io::Result<()> {
    let bytes = vec![in rt.alloc(); 0u8; count.parse().unwrap_or(0)]?;
    fs::write(rt, path, bytes.as_slice())
}

/// What is told of a file of this many bytes, or of none.
fn size_told<R: AllocGlobal + Files>(rt: &R, path: &str) -> io::Result<String> {
    match fs::metadata(rt, path) {
        Ok(data) => Ok(format!(in rt.alloc(); "{} bytes\n", data.len())?),
        Err(_) => Ok(String::from_str(rt.alloc(), "no file\n")?),
    }
}

/// What is told of a file's text, or of none.
fn text_told<R: AllocGlobal + Files>(rt: &R, path: &str) -> io::Result<String> {
    match fs::read_to_string(rt, path) {
        Ok(text) => Ok(text),
        Err(_) => Ok(String::from_str(rt.alloc(), "no file\n")?),
    }
}

/// What is told of two files.
fn compared<R: AllocGlobal + Files>(rt: &R, path: &str, other: &str) -> io::Result<String> {
    let is_same = fs::read(rt, path)?.as_slice() == fs::read(rt, other)?.as_slice();
    let told = if is_same { "same\n" } else { "different\n" };
    Ok(String::from_str(rt.alloc(), told)?)
}

/// Holds what was opened.
fn hold(held: &mut Held, opened: Result<FileDisk<SystemFile>, OpenError>) -> io::Result<()> {
    let Ok(disk) = opened else {
        return Err(io::Error::from(ErrorKind::PermissionDenied));
    };
    held.disk = Some(disk);
    Ok(())
}

/// Lets go what is held, of which no call has failed.
fn release(held: &mut Held) -> io::Result<()> {
    match held.disk.take() {
        Some(disk) if disk.failed_calls() == 0 => Ok(()),
        _ => Err(io::Error::from(ErrorKind::Other)),
    }
}

/// Does words that tell nothing. Answers whether they were done.
fn change_files<R: AllocGlobal + Files<File = File>>(
    rt: &R,
    words: &str,
    path: &str,
    other: &str,
    input: &str,
    held: &mut Held,
) -> io::Result<bool> {
    match word(words, 0) {
        "put" => fs::write(rt, path, input)?,
        "change" => change(rt, path, input)?,
        "zeros" => make_zeros(rt, path, word(words, 2))?,
        "folder" => fs::create_dir(rt, path)?,
        "link" => symlink(rt, word(words, 2), path)?,
        "copy" => {
            let _ = fs::copy(rt, path, other)?;
        }
        "hold" => hold(held, open_file(rt, path))?,
        "hold-to-read" => hold(held, open_to_read(rt, path))?,
        "hold-pipe" => held.pipe = Some(io::pipe(rt)?),
        "release" => release(held)?,
        _ => return Ok(false),
    }
    Ok(true)
}

/// Does the words of a step, whose names of files are those of this folder. Answers what they tell.
pub(crate) fn told_of_files<R: AllocGlobal + Files<File = File>>(
    rt: &R,
    folder: &str,
    words: &str,
    input: &str,
    held: &mut Held,
) -> io::Result<String> {
    let path = format!(in rt.alloc(); "{folder}/{}", word(words, 1))?;
    let other = format!(in rt.alloc(); "{folder}/{}", word(words, 2))?;
    let (path, other) = (path.as_str(), other.as_str());
    match word(words, 0) {
        "size" => size_told(rt, path),
        "text" => text_told(rt, path),
        "compare" => compared(rt, path, other),
        _ => {
            let is_done = change_files(rt, words, path, other, input, held)?;
            let told = if is_done { "" } else { "no such words\n" };
            Ok(String::from_str(rt.alloc(), told)?)
        }
    }
}
