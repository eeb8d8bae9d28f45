//! Streams whose calls wait.
use std::io::{ErrorKind, Read, Write};
use std::time::{Clock, Duration};
use std::{io, thread};

/// For how many milliseconds a stream rests that has nothing to give, or no space, and does not wait by itself.
const REST: u64 = 1;

/// A stream whose calls wait: if a call would have to wait and does not, as on a stream with `O_NONBLOCK`, it is repeated after a rest.
#[derive(Drop)]
pub struct Patient<'a, R, S> {
    clock: &'a R,
    stream: S,
}

impl<'a, R, S> Patient<'a, R, S> {
    pub fn new(clock: &'a R, stream: S) -> Patient<'a, R, S> {
        Patient { clock, stream }
    }
}

impl<R: Clock, S: Read> Read for Patient<'_, R, S> {
    fn read(&mut self, buf: &mut [u8]) -> io::Result<usize> {
        for _ in 0..u64::MAX {
            match self.stream.read(buf) {
                Err(error) if error.kind() == ErrorKind::WouldBlock => {
                    thread::sleep(self.clock, Duration::from_millis(REST));
                }
                answer => return answer,
            }
        }
        self.stream.read(buf)
    }
}

impl<R: Clock, S: Write> Write for Patient<'_, R, S> {
    fn write(&mut self, buf: &[u8]) -> io::Result<usize> {
        for _ in 0..u64::MAX {
            match self.stream.write(buf) {
                Err(error) if error.kind() == ErrorKind::WouldBlock => {
                    thread::sleep(self.clock, Duration::from_millis(REST));
                }
                answer => return answer,
            }
        }
        self.stream.write(buf)
    }

    fn flush(&mut self) -> io::Result<()> {
        self.stream.flush()
    }
}
