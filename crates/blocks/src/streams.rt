use std::alloc::Global;
use std::io;
use std::io::{ErrorKind, Write};

/// A writer whose call of this number, counted from 1, fails, be it a write or a flush. None fails where the number is 0. It keeps what it was given, and how many bytes
/// each flush sent out.
#[derive(Drop)]
pub struct NotingWriter {
    calls: u32,
    waiting: usize,
    /// The bytes that it was given.
    pub written: Vec<u8>,
    /// How many bytes each flush sent out.
    pub sent: Vec<usize>,
}

impl NotingWriter {
    /// A writer whose call of this number fails.
    pub fn new(alloc: Global, calls: u32) -> NotingWriter {
        NotingWriter {
            calls,
            waiting: 0,
            written: Vec::new(alloc),
            sent: Vec::new(alloc),
        }
    }

    /// Whether this call fails.
    fn fails(&mut self) -> bool {
        self.calls = self.calls.wrapping_sub(1);
        self.calls == 0
    }
}

impl Write for NotingWriter {
    fn write(&mut self, buf: &[u8]) -> io::Result<usize> {
        if self.fails() {
            return Err(io::Error::from(ErrorKind::BrokenPipe));
        }
        self.waiting = self.waiting.wrapping_add(buf.len());
        self.written.write(buf)
    }

    fn flush(&mut self) -> io::Result<()> {
        if self.fails() {
            return Err(io::Error::from(ErrorKind::BrokenPipe));
        }
        self.sent.push(self.waiting)?;
        self.waiting = 0;
        Ok(())
    }
}
