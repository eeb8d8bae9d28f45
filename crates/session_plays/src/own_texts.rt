// Texts that readers own.
use roadnet::Refusal;
use std::alloc::Global;
use std::io::{self, ErrorKind, Read};

/// A text that is read, and whose read of this number fails; none where it is 0.
#[derive(Drop)]
pub(crate) struct OwnText {
    bytes: Vec<u8>,
    at: usize,
    reads: u32,
}

impl OwnText {
    /// The text of which this read fails.
    pub(crate) fn new(alloc: Global, text: &[u8], reads: u32) -> Result<OwnText, Refusal> {
        Ok(OwnText {
            bytes: Vec::from_slice(alloc, text)?,
            at: 0,
            reads,
        })
    }
}

impl Read for OwnText {
    fn read(&mut self, buf: &mut [u8]) -> io::Result<usize> {
        self.reads = self.reads.wrapping_sub(1);
        if self.reads == 0 {
            return Err(io::Error::from(ErrorKind::BrokenPipe));
        }
        let mut rest = self.bytes.get(self.at..).unwrap_or(&[]);
        let count = rest.read(buf)?;
        self.at = self.at.wrapping_add(count);
        Ok(count)
    }
}
