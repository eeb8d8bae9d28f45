//! A writer that counts its failed calls.
ghost use Rattle.std.specs.Prelude.{◌≡◌};
ghost use Rattle.std.specs.Io.KnownBytes.{Keeps};
ghost use Rattle.printing.specs.Counting.{failed_writes, writer_of};
ghost use Rattle.printing.specs.Writers.{OnlyWriterFails, Puts};

use crate::failed::Failed;
use roadnet::Refusal;
use std::io::Write;

/// A writer, and how many calls of it have failed, up to `u64::MAX`.
#[derive(Drop)]
pub struct CountedWriter<'w, W> {
    writer: &'w mut W,
    failed: u64,
}

impl<'w, W: Write> CountedWriter<'w, W> {
    /// No call has failed yet.
    pub fn new(writer: &'w mut W) -> CountedWriter<'w, W>
        ensures writer { writer_of result ≡ writer.old }
        ensures same { result.writer.ghost_name ≡ writer.entry.ghost_name }
        ensures failed { failed_writes result ≡ 0 }
    {
        CountedWriter { writer, failed: 0 }
    }

    /// How many calls have failed.
    pub fn failed_writes(&self) -> u64
        ensures { result ≡ failed_writes self.now }
    {
        self.failed
    }

    /// Writes these bytes and nothing else. The count goes up if the writer fails, and only then.
    pub fn write_all(&mut self, bytes: &[u8]) -> Result<(), Failed>
        ensures { Puts W.contents bytes.now result self.old self.new }
    {
        match self.writer.write_all(bytes) {
            Ok(()) => Ok(()),
            Err(_) => {
                self.failed = self.failed.saturating_add(1);
                Err(Failed::Code(Refusal::Write))
            }
        }
    }

    /// Sends what was written. The count goes up if the writer fails, and only then.
    pub fn flush(&mut self) -> Result<(), Failed>
        ensures kept { Keeps (W.contents (writer_of self.old)) (W.contents (writer_of self.new)) }
        ensures fails { OnlyWriterFails result self.old self.new }
    {
        match self.writer.flush() {
            Ok(()) => Ok(()),
            Err(_) => {
                self.failed = self.failed.saturating_add(1);
                Err(Failed::Code(Refusal::Write))
            }
        }
    }
}
