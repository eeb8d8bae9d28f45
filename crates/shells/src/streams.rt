//! The shell's clock and standard streams.
use crate::input::ShellInput;
use crate::shell::Shell;
use std::alloc::Allocator;
use std::cell::RefCell;
use std::fmt::Display;
use std::io;
use std::io::{BufRead, ErrorKind, Lines};
use std::time::{Clock, Duration};

impl<R> Clock for Shell<'_, R> {
    fn monotonic(&self) -> io::Result<Duration> {
        if self.asks_a_second == 0 {
            return Err(io::Error::from(ErrorKind::Unsupported));
        }
        self.asks.set(self.asks.get().saturating_add(1));
        let millis = self.asks.get().saturating_mul(1000) / self.asks_a_second;
        Ok(Duration::from_millis(millis))
    }

    fn since_1970(&self) -> io::Result<Duration> {
        Err(io::Error::from(ErrorKind::Unsupported))
    }

    fn sleep(&self, _duration: Duration) {
        self.rests.set(self.rests.get().saturating_add(1));
    }
}

/// Adds a text to one that is kept.
pub(crate) fn append(to: &RefCell<String>, text: &str) -> io::Result<()> {
    let Ok(mut kept) = to.try_borrow_mut() else {
        return Err(io::Error::from(ErrorKind::Other));
    };
    kept.push_str(text)?;
    Ok(())
}

impl<R: AllocGlobal> Print for Shell<'_, R> {
    fn print<D: Display + Drop>(&self, value: D) -> io::Result<()> {
        let text = format!(in self.rt.alloc(); "{value}")?;
        Print::write_all(self, text.as_bytes())
    }

    fn println<D: Display + Drop>(&self, value: D) -> io::Result<()> {
        let text = format!(in self.rt.alloc(); "{value}\n")?;
        Print::write_all(self, text.as_bytes())
    }

    fn write_all(&self, bytes: &[u8]) -> io::Result<()> {
        let Ok(mut writes) = self.writes.try_borrow_mut() else {
            return Err(io::Error::from(ErrorKind::Other));
        };
        self.waits.set(self.is_slow && !self.waits.get());
        if self.waits.get() {
            return Err(io::Error::from(ErrorKind::WouldBlock));
        }
        writes.push(bytes.len())?;
        if self.fails_in(writes.len()) {
            return Err(io::Error::from(ErrorKind::BrokenPipe));
        }
        match str::from_utf8(bytes) {
            Ok(text) => append(&self.out, text),
            Err(_) => Err(io::Error::from(ErrorKind::InvalidData)),
        }
    }
}

impl<R> Shell<'_, R> {
    /// Whether the write to the standard output of this number fails.
    fn fails_in(&self, write: usize) -> bool {
        write == self.fails_at || self.stays_failed && write > self.fails_at
    }

    fn write_error(&self, text: &str) -> io::Result<()> {
        if self.is_mute {
            return Err(io::Error::from(ErrorKind::BrokenPipe));
        }
        append(&self.err, text)
    }
}

impl<R: AllocGlobal> Eprint for Shell<'_, R> {
    fn eprint<D: Display + Drop>(&self, value: D) -> io::Result<()> {
        let text = format!(in self.rt.alloc(); "{value}")?;
        self.write_error(text.as_str())
    }

    fn eprintln<D: Display + Drop>(&self, value: D) -> io::Result<()> {
        let text = format!(in self.rt.alloc(); "{value}\n")?;
        self.write_error(text.as_str())
    }
}

impl<'a, R> Input for Shell<'a, R> {
    type Reader = ShellInput<'a>;

    fn read_line<A: Allocator + Clone>(&self, _buf: &mut String<A>) -> io::Result<usize> {
        Err(io::Error::from(ErrorKind::Unsupported))
    }

    fn lines<A: Allocator>(&self, alloc: A) -> Lines<ShellInput<'a>, A> {
        BufRead::lines(self.reader(), alloc)
    }

    fn reader(&self) -> ShellInput<'a> {
        ShellInput {
            bytes: self.input,
            fails: self.input_fails,
            is_slow: self.is_slow,
            waits: false,
        }
    }
}
