use std::io;
use std::io::{BufRead, ErrorKind, Read};

/// A standard input, behind which a read fails or tells the end.
#[derive(Drop)]
pub struct ShellInput<'a> {
    pub(crate) bytes: &'a [u8],
    pub(crate) fails: bool,
    pub(crate) is_slow: bool,
    // The next read would have to wait.
    pub(crate) waits: bool,
}

impl Read for ShellInput<'_> {
    fn read(&mut self, buf: &mut [u8]) -> io::Result<usize> {
        self.waits = self.is_slow && !self.waits;
        if self.waits {
            return Err(io::Error::from(ErrorKind::WouldBlock));
        }
        if self.fails && self.bytes.is_empty() {
            return Err(io::Error::from(ErrorKind::BrokenPipe));
        }
        self.bytes.read(buf)
    }
}

impl BufRead for ShellInput<'_> {
    fn fill_buf(&mut self) -> io::Result<&[u8]> {
        if self.fails && self.bytes.is_empty() {
            return Err(io::Error::from(ErrorKind::BrokenPipe));
        }
        Ok(self.bytes)
    }

    fn consume(&mut self, amount: usize) {
        self.bytes.consume(amount);
    }
}
