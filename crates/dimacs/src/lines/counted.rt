//! A reader that counts its failed calls.
ghost use Rattle.std.specs.Prelude.{◌≡◌, ◌+◌, ◌-◌, ◌^◌, ◌<◌, ℕ, List, Option, IfErr};
ghost use Rattle.dimacs.specs.Counts.{failed_calls, reader_of, IsSameReader, TakesByte, CountsCall, one_more_failed};
ghost use Rattle.dimacs.specs.Turns.{FarFrom, Turns, HasRoomForLines, IsNoRead, CountsTurn};

use crate::fault::Code;
use crate::lines::feed::{Feed, TakenBytes};
use crate::lines::taking::TakeLines;
use std::io::{self, BufRead, ErrorKind};

/// A reader, and how many of its calls have failed, up to `u64::MAX`. A call that was interrupted is repeated and does not count. A reader that goes on,
/// within one reading, until its calls and bytes are 2^64 - 2 together counts as one that fails.
#[derive(Drop)]
pub struct Counted<'r, R> {
    reader: &'r mut R,
    failed: u64,
}

/// What one call of a reader gave.
#[derive(Clone, Copy)]
pub(crate) enum Turn {
    /// The call failed.
    Failed,
    /// There are no more bytes.
    AtEnd,
    /// These bytes were taken.
    Took(TakenBytes),
    /// The bytes have a fault.
    Refused(Code),
}

const NOTHING: TakenBytes = TakenBytes {
    count: 0,
    at_run: false,
};

/// Calls the reader once, and feeds the bytes that it offers.
fn feed_from<R: BufRead, T: TakeLines>(reader: &mut R, feed: &mut Feed<T>) -> Turn
    requires { feed.old.lines + feed.old.left < 2 ^ 64 - 1 }
    ensures turns { (known : Option (List ℕ))
        → FarFrom T.judge T.has_taken T.COMMENT known (R.remaining reader.old) feed.old
        → Turns T.judge T.has_taken T.COMMENT known (R.remaining reader.new) feed.new result }
    ensures room { HasRoomForLines feed.old feed.new result }
    ensures refused { IsNoRead result }
    ensures until { feed.new.until_run ≡ feed.old.until_run }
{
    let left = feed.left;
    let bytes = match reader.fill_buf() {
        Ok(bytes) => bytes,
        Err(error) => {
            if left > 0 && error.kind() == ErrorKind::Interrupted {
                feed.left = left - 1;
                return Turn::Took(NOTHING);
            }
            return Turn::Failed;
        }
    };
    if bytes.len() as u64 >= left {
        return Turn::Failed;
    }
    if bytes.is_empty() {
        return Turn::AtEnd;
    }
    match feed.take(bytes) {
        Ok(part) => {
            reader.consume(part.count);
            feed.left = left - 1 - part.count as u64;
            Turn::Took(part)
        }
        Err(code) => Turn::Refused(code),
    }
}

/// Calls the reader once, and takes the first byte that it offers; nothing at the end. After an error no byte is taken.
fn first_byte<R: BufRead>(reader: &mut R) -> io::Result<Option<u8>>
    ensures { TakesByte (R.remaining reader.old) (R.remaining reader.new) result }
{
    let byte = match reader.fill_buf()? {
        [byte, ..] => *byte,
        [] => return Ok(None),
    };
    reader.consume(1);
    Ok(Some(byte))
}

/// The next byte; nothing at the end. A call that was interrupted is repeated.
fn byte_of<R: BufRead>(reader: &mut R) -> Result<Option<u8>, Code>
    ensures bytes { TakesByte (R.remaining reader.old) (R.remaining reader.new) result }
    ensures refused { IfErr result (λ code. code ≡ Code.Read) }
{
    for _ in 0..u64::MAX {
        match first_byte(reader) {
            Ok(byte) => return Ok(byte),
            Err(error) => {
                if error.kind() != ErrorKind::Interrupted {
                    return Err(Code::Read);
                }
            }
        }
    }
    Err(Code::Read)
}

impl<'r, R: BufRead> Counted<'r, R> {
    /// No call has failed yet.
    pub fn new(reader: &'r mut R) -> Counted<'r, R>
        ensures reader { reader_of result ≡ reader.old }
        ensures same { result.reader.ghost_name ≡ reader.entry.ghost_name }
        ensures failed { failed_calls result ≡ 0 }
    {
        Counted { reader, failed: 0 }
    }

    /// How many calls of the reader have failed.
    pub fn failed_calls(&self) -> u64
        ensures { result ≡ failed_calls self.now }
    {
        self.failed
    }

    /// Calls the reader once, and feeds the bytes that it offers. The count goes up if the call fails, and only then.
    pub(crate) fn turn<T: TakeLines>(&mut self, feed: &mut Feed<T>) -> Turn
        requires { feed.old.lines + feed.old.left < 2 ^ 64 - 1 }
        ensures turns { (known : Option (List ℕ))
            → FarFrom T.judge T.has_taken T.COMMENT known (R.remaining (reader_of self.old)) feed.old
            → Turns T.judge T.has_taken T.COMMENT known (R.remaining (reader_of self.new)) feed.new result }
        ensures counts { CountsTurn (failed_calls self.old) (failed_calls self.new) result }
        ensures same { IsSameReader self.old self.new }
        ensures room { HasRoomForLines feed.old feed.new result }
        ensures refused { IsNoRead result }
        ensures until { feed.new.until_run ≡ feed.old.until_run }
    {
        let turn = feed_from(self.reader, feed);
        if let Turn::Failed = turn {
            self.count_failure();
        }
        turn
    }

    /// One more call has failed.
    fn count_failure(&mut self)
        ensures counts { failed_calls self.new ≡ one_more_failed (failed_calls self.old) }
        ensures reader { reader_of self.new ≡ reader_of self.old }
        ensures same { IsSameReader self.old self.new }
    {
        self.failed = self.failed.saturating_add(1);
    }

    /// The next byte of the reader; nothing at the end. The only error is a failed call (`Read`). Then no byte is taken and the count goes up; it goes up
    /// in no other case.
    pub fn next_byte(&mut self) -> Result<Option<u8>, Code>
        ensures bytes { TakesByte (R.remaining (reader_of self.old)) (R.remaining (reader_of self.new)) result }
        ensures refused { IfErr result (λ code. code ≡ Code.Read) }
        ensures counts { CountsCall (failed_calls self.old) (failed_calls self.new) result }
        ensures same { IsSameReader self.old self.new }
    {
        let next = byte_of(self.reader);
        if next.is_err() {
            self.count_failure();
        }
        next
    }
}
