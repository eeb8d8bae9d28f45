//! Streams that report how far a job has come. Each passes every call on to the stream that it wraps.
ghost use Rattle.std.specs.Prelude.{◌≡◌};
ghost use Rattle.progress.specs.Inside.{reader_inside, writer_inside};

use crate::notes::Progress;
use filedisk::{Call, Failure};
use std::fmt::{self, Display};
use std::io::{self, ErrorKind, Read, Write};
use std::time::Clock;

/// Keeps why a call of a stream failed. One that a signal interrupts is repeated.
fn keep_failure<R: AllocGlobal>(
    progress: &Progress<'_, R>,
    name: &str,
    call: Call,
    error: &io::Error,
) {
    if error.kind() != ErrorKind::Interrupted {
        progress.keep(name, &Failure::of(call, error));
    }
}

/// How many bytes of a text were read, and of how many, if that is known.
#[derive(Clone, Copy)]
struct BytesRead {
    count: u64,
    of: Option<u64>,
}

impl Display for BytesRead {
    fn fmt<W: fmt::Write>(&self, f: &mut fmt::Formatter<W>) -> fmt::Result {
        match self.of {
            Some(of) => write!(f, "{} of {of} bytes read", self.count),
            None => write!(f, "{} bytes read", self.count),
        }
    }
}

/// A reader of a text that reports how many bytes were read.
#[derive(Drop)]
pub struct TellingReader<'a, R, S> {
    progress: &'a Progress<'a, R>,
    name: &'a str,
    read: BytesRead,
    stream: S,
}

impl<'a, R, S> TellingReader<'a, R, S> {
    /// Nothing is read yet, of so many bytes, if that is known.
    pub fn new(
        progress: &'a Progress<'a, R>,
        name: &'a str,
        of: Option<u64>,
        stream: S,
    ) -> TellingReader<'a, R, S>
        ensures inside { reader_inside result ≡ stream }
    {
        TellingReader {
            progress,
            name,
            read: BytesRead { count: 0, of },
            stream,
        }
    }
}

impl<R: AllocGlobal + Clock + Eprint, S: Read> Read for TellingReader<'_, R, S> {
    ghost remaining = { λ reader. S.remaining reader.stream };

    fn read(&mut self, buf: &mut [u8]) -> io::Result<usize> {
        let answer = self.stream.read(buf);
        match &answer {
            Ok(count) => {
                self.read.count = self.read.count.saturating_add(*count as u64);
                self.progress.tell_progress(self.name, &self.read);
            }
            Err(error) => keep_failure(self.progress, self.name, Call::Read, error),
        }
        answer
    }
}

/// How many lines were written.
#[derive(Clone, Copy)]
struct LinesWritten {
    count: u64,
}

impl Display for LinesWritten {
    fn fmt<W: fmt::Write>(&self, f: &mut fmt::Formatter<W>) -> fmt::Result {
        write!(f, "{} lines written", self.count)
    }
}

/// How many lines end in these bytes.
fn lines_in(bytes: &[u8]) -> u64 {
    bytes.iter().filter(|byte| **byte == b'\n').count() as u64
}

/// A writer that reports how many lines were written.
#[derive(Drop)]
pub struct TellingWriter<'a, R, S> {
    progress: &'a Progress<'a, R>,
    name: &'a str,
    written: LinesWritten,
    stream: S,
}

impl<'a, R, S> TellingWriter<'a, R, S> {
    /// Nothing is written yet.
    pub fn new(progress: &'a Progress<'a, R>, name: &'a str, stream: S) -> TellingWriter<'a, R, S>
        ensures inside { writer_inside result ≡ stream }
    {
        TellingWriter {
            progress,
            name,
            written: LinesWritten { count: 0 },
            stream,
        }
    }
}

impl<R: AllocGlobal + Clock + Eprint, S: Write> Write for TellingWriter<'_, R, S> {
    ghost contents = { λ writer. S.contents writer.stream };

    fn write(&mut self, buf: &[u8]) -> io::Result<usize> {
        let answer = self.stream.write(buf);
        match &answer {
            Ok(count) if self.progress.is_asked() => {
                let lines = lines_in(&buf[..*count]);
                self.written.count = self.written.count.saturating_add(lines);
                self.progress.tell_progress(self.name, &self.written);
            }
            Ok(_) => {}
            Err(error) => keep_failure(self.progress, self.name, Call::Write, error),
        }
        answer
    }

    fn flush(&mut self) -> io::Result<()> {
        self.stream.flush()
    }
}
