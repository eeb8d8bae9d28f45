//! The beginning of a line, kept until its end is read.
ghost use Rattle.std.specs.Prelude.{◌≡◌, ◌+◌, ◌*◌, ◌<◌, ◌≤◌, ◌++◌, ◌∷◌, length, IfErr, OnOk, MatchBool, [], true};

use crate::fault::Code;
use crate::lines::line::{ends_in_blank, without_carriage_return};
use crate::lines::taking::{TakeLines, take_or_run};
use crate::numerals::numeral_end::{digits_at_end, zeros_in_front};
use std::alloc::Global;

/// More digits than a size of 64 bits has.
const MOST_DIGITS: usize = 21;

/// The part of a line that is kept. All of it is examined when it is twice as much as at the last look, and once more when the line ends; then it is
/// dropped. So its bytes, and those that a look left out, are examined at most three times.
#[derive(Drop)]
pub(crate) struct LineFront {
    bytes: Vec<u8>,
    /// How many bytes were kept at the last look.
    judged: usize,
    /// How many bytes all looks saw, less two looks for each byte that was left out.
    looked: usize,
    ghost within: { judged ≤ length bytes.items },
    ghost linear: { looked ≤ 2 * judged },
}

impl LineFront {
    ghost use Rattle.std.specs.Prelude.{◌≢◌, ℕ, List};
    ghost use Rattle.std.specs.Io.BufRead.{strip_last};
    ghost use Rattle.dimacs.specs.Lines.{fields};
    ghost use Rattle.dimacs.specs.Faults.{Row};
    ghost use Rattle.dimacs.specs.Overflow.{EndsInBlank};
    ghost use Rattle.dimacs.specs.Alike.{SaySame};
    ghost use Rattle.dimacs.specs.NumeralEnds.{HasShortEnd};
    ghost use Rattle.dimacs.specs.Progress.{TakesOrRuns};

    /// Nothing is kept.
    pub(crate) fn new(alloc: Global) -> LineFront
        ensures { result.bytes.items ≡ [] }
    {
        LineFront {
            bytes: Vec::new(alloc),
            judged: 0,
            looked: 0,
        }
    }

    pub(crate) fn is_empty(&self) -> bool
        ensures yes { result ≡ true → length self.now.bytes.items ≡ 0 }
        ensures no { length self.now.bytes.items ≡ 0 → result ≡ true }
    {
        self.bytes.is_empty()
    }

    /// Whether only this byte is kept.
    pub(crate) fn is_byte(&self, byte: u8) -> bool
        ensures yes { result ≡ true → self.now.bytes.items ≡ byte ∷ [] }
        ensures no { self.now.bytes.items ≡ byte ∷ [] → result ≡ true }
    {
        match self.bytes.as_slice() {
            [first] => *first == byte,
            _ => false,
        }
    }

    /// Whether the last byte is a blank.
    pub(crate) fn ends_in_blank(&self) -> bool
        ensures { result ≡ true → EndsInBlank self.now.bytes.items }
    {
        ends_in_blank(&self.bytes)
    }

    /// Keeps these bytes too.
    pub(crate) fn append(&mut self, bytes: &[u8]) -> Result<(), Code>
        ensures kept { OnOk result (self.new.bytes.items ≡ self.old.bytes.items ++ bytes.now) }
        ensures refused { IfErr result (λ code. code ≡ Code.OutOfMemory) }
        ensures judged { self.new.judged ≡ self.old.judged }
        ensures looked { self.new.looked ≡ self.old.looked }
    {
        match self.bytes.extend_from_slice(bytes) {
            Ok(()) => Ok(()),
            Err(_) => Err(Code::OutOfMemory),
        }
    }

    /// Keeps nothing.
    pub(crate) fn clear(&mut self)
        ensures { self.new.bytes.items ≡ [] }
    {
        self.bytes.clear();
        self.judged = 0;
        self.looked = 0;
    }

    /// Whether what is kept is twice as much as at the last look. If so, it counts as examined.
    pub(crate) fn is_due(&mut self) -> bool
        ensures kept { self.new.bytes.items ≡ self.old.bytes.items }
        ensures due { MatchBool result
            ((2 * self.old.judged ≤ length self.old.bytes.items)
            × (self.new.judged ≡ length self.old.bytes.items) × (self.new.looked ≡ self.old.looked + length self.old.bytes.items))
            ((length self.old.bytes.items < 2 * self.old.judged)
            × (self.new.judged ≡ self.old.judged) × (self.new.looked ≡ self.old.looked)) }
    {
        let length = self.bytes.len();
        if length / 2 < self.judged {
            return false;
        }
        self.judged = length;
        self.looked += length;
        true
    }

    /// Shortens a long numeral at the end, after another field: it drops zeros in front, and what follows 21 digits. This is part of a look, and each byte
    /// that is dropped takes two looks off the count.
    pub(crate) fn shorten(&mut self)
        requires { self.old.judged ≡ length self.old.bytes.items }
        ensures same { (more : List ℕ) → SaySame (fields (strip_last 13 (self.old.bytes.items ++ more))) (fields (strip_last 13 (self.new.bytes.items ++ more))) }
        ensures some { (0 < length self.old.bytes.items → 0 < length self.new.bytes.items) × (0 < length self.new.bytes.items → 0 < length self.old.bytes.items) }
        ensures short { HasShortEnd self.new.bytes.items }
        ensures looked { self.old.looked + 2 * length self.new.bytes.items ≤ self.new.looked + 2 * length self.old.bytes.items }
    {
        let Some(start) = digits_at_end(self.seen()) else {
            return;
        };
        let count = self.bytes.len() - start;
        if count <= MOST_DIGITS {
            return;
        }
        let more = count - MOST_DIGITS;
        let (_, digits) = self.seen().split_at(start);
        let zeros = zeros_in_front(digits).min(more);
        self.bytes
            .copy_within(start + zeros..start + zeros + MOST_DIGITS, start);
        self.bytes.truncate(start + MOST_DIGITS);
        self.judged = self.judged.saturating_sub(more);
        self.looked = self.looked.saturating_sub(2 * more);
    }

    /// All that is kept. It counts as examined.
    pub(crate) fn seen(&self) -> &[u8]
        requires { self.now.judged ≡ length self.now.bytes.items }
        ensures { result.now ≡ self.now.bytes.items }
    {
        self.bytes.as_slice()
    }

    /// Takes the line that begins with what is kept and ends with this piece. After it nothing is kept.
    pub(crate) fn take_whole<T: TakeLines>(
        &mut self,
        taker: &mut T,
        until_run: bool,
        piece: &[u8],
    ) -> Result<bool, Code>
        ensures reads_nothing { IfErr result (λ code. code ≢ Code.Read) }
        ensures empty { OnOk result (self.new.bytes.items ≡ []) }
        ensures taken { (earlier : List Row) → T.has_taken earlier taker.old
            → TakesOrRuns T.judge T.has_taken until_run earlier
            (fields (strip_last 13 (self.old.bytes.items ++ piece.now))) taker.new result }
    {
        if self.bytes.is_empty() {
            return take_or_run(taker, until_run, without_carriage_return(piece));
        }
        self.append(piece)?;
        let at_run = take_or_run(taker, until_run, without_carriage_return(&self.bytes))?;
        self.clear();
        Ok(at_run)
    }
}
