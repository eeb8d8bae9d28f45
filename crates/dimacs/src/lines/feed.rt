//! The lines of a text, taken from its bytes piece by piece.
ghost use Rattle.std.specs.Prelude.{◌≡◌, ◌≢◌, ◌+◌, ◌-◌, ◌*◌, ◌^◌, ◌<◌, ◌≤◌, ◌⊎◌, ◌++◌, ◌∷◌, ℕ, List, length, IfOk, IfErr, IfSome, OnOk, OnErr, Some, [], true, ⊤};
ghost use Rattle.std.specs.Io.BufRead.{strip_last};
ghost use Rattle.dimacs.specs.Lines.{fields};
ghost use Rattle.dimacs.specs.Faults.{Row};
ghost use Rattle.dimacs.specs.Progress.{StandsForFront, Within, Feeds, TakesOrRuns};
ghost use Rattle.dimacs.specs.Overflow.{IsFaultOfFront};
ghost use Rattle.dimacs.specs.NumeralEnds.{HasShortEnd};
ghost use Rattle.dimacs.specs.Taking.{ByMemory};
ghost use Rattle.dimacs.specs.Ends.{HasTakenSome, ReadsLines};
ghost use Rattle.dimacs.specs.Texts.{InMemory, GivesLines};
ghost use Rattle.dimacs.specs.Counts.{CountsFailures, IsSameReader, failed_calls, reader_of};

use crate::fault::{Code, Fault};
use crate::lines::counted::{Counted, Turn};
use crate::lines::front::LineFront;
use crate::lines::line::{
    is_remark, overflows, split_at_feed, split_line, without_blanks, without_carriage_return,
};
use crate::lines::taking::TakeLines;
use std::alloc::Global;
use std::io::BufRead;

/// What is known of a text while its bytes come in: `lines` lines were taken, and `kept` has the beginning of the next one.
#[derive(Drop)]
pub(crate) struct Feed<T> {
    pub(crate) taker: T,
    pub(crate) kept: LineFront,
    pub(crate) lines: u64,
    pub(crate) until_run: bool,
    pub(crate) left: u64,
}

/// How many bytes were taken, and whether they end with a line `run`.
#[derive(Clone, Copy)]
pub(crate) struct TakenBytes {
    pub(crate) count: usize,
    pub(crate) at_run: bool,
}

/// What a value has made of the lines that it was given, their number, and whether a line `run` follows, which is not one of them.
#[derive(Drop)]
pub struct Ended<T> {
    pub taker: T,
    pub lines: u64,
    pub at_run: bool,
}

impl<T: TakeLines> Feed<T> {
    /// Takes the line that begins with what is kept and ends with this piece. After it nothing is kept.
    fn take_whole(&mut self, piece: &[u8]) -> Result<bool, Code>
        ensures reads_nothing { IfErr result (λ code. code ≢ Code.Read) }
        ensures empty { OnOk result (self.new.kept.bytes.items ≡ []) }
        ensures taken { (earlier : List Row) (front : List ℕ) → T.has_taken earlier self.old.taker
            → StandsForFront T.COMMENT front self.old.kept.bytes.items
            → TakesOrRuns T.judge T.has_taken self.old.until_run earlier
            (fields (strip_last 13 (front ++ piece.now))) self.new.taker result }
        ensures lines { self.new.lines ≡ self.old.lines }
        ensures until { self.new.until_run ≡ self.old.until_run }
        ensures left { self.new.left ≡ self.old.left }
    {
        if self.is_comment() {
            self.taker.pass_comment();
            self.kept.clear();
            return Ok(false);
        }
        self.taker.same_is_taken();
        self.kept.take_whole(&mut self.taker, self.until_run, piece)
    }

    /// Whether only the mark of a comment is kept.
    fn is_comment(&self) -> bool
        ensures yes { result ≡ true → self.now.kept.bytes.items ≡ T.COMMENT ∷ [] }
        ensures no { self.now.kept.bytes.items ≡ T.COMMENT ∷ [] → result ≡ true }
    {
        self.kept.is_byte(T::COMMENT)
    }

    /// Keeps more bytes, without blanks that follow a blank.
    fn append_fields(&mut self, piece: &[u8]) -> Result<(), Code>
        ensures kept { OnOk result ((front : List ℕ) → StandsForFront T.COMMENT front self.old.kept.bytes.items
            → (self.old.kept.bytes.items ≡ T.COMMENT ∷ [] → ⊥) → StandsForFront T.COMMENT (front ++ piece.now) self.new.kept.bytes.items) }
        ensures refused { IfErr result (λ code. code ≡ Code.OutOfMemory) }
        ensures taker { self.new.taker ≡ self.old.taker }
        ensures lines { self.new.lines ≡ self.old.lines }
        ensures until { self.new.until_run ≡ self.old.until_run }
        ensures left { self.new.left ≡ self.old.left }
    {
        if self.kept.ends_in_blank() {
            return self.kept.append(without_blanks(piece));
        }
        self.kept.append(piece)
    }

    /// Of a comment, keeps only the mark.
    fn keep_mark(&mut self) -> Result<(), Code>
        ensures kept { OnOk result (self.new.kept.bytes.items ≡ T.COMMENT ∷ []) }
        ensures refused { IfErr result (λ code. code ≡ Code.OutOfMemory) }
        ensures taker { self.new.taker ≡ self.old.taker }
        ensures lines { self.new.lines ≡ self.old.lines }
        ensures until { self.new.until_run ≡ self.old.until_run }
        ensures left { self.new.left ≡ self.old.left }
    {
        self.kept.clear();
        self.kept.append(&[T::COMMENT])
    }

    /// Examines what is kept, once that is twice as much as at the last look. Of a comment only the mark is kept, the fault of a line that overflows is
    /// reported, and of a long numeral at the end only as many digits are kept as determine its size.
    fn look(&mut self) -> Result<(), Code>
        ensures kept { OnOk result ((front : List ℕ) → StandsForFront T.COMMENT front self.old.kept.bytes.items
            → StandsForFront T.COMMENT front self.new.kept.bytes.items) }
        ensures refused { (earlier : List Row) (front : List ℕ) → T.has_taken earlier self.old.taker
            → StandsForFront T.COMMENT front self.old.kept.bytes.items
            → IfErr result (λ code. ByMemory code (IsFaultOfFront T.judge earlier front code) ⊤) }
        ensures reads_nothing { IfErr result (λ code. code ≢ Code.Read) }
        ensures short { OnOk result ((length self.new.kept.bytes.items < 2 * self.new.kept.judged) ⊎ HasShortEnd self.new.kept.bytes.items) }
        ensures taker { OnOk result (self.new.taker ≡ self.old.taker) }
        ensures lines { self.new.lines ≡ self.old.lines }
        ensures until { self.new.until_run ≡ self.old.until_run }
        ensures left { self.new.left ≡ self.old.left }
    {
        if !self.kept.is_due() {
            return Ok(());
        }
        if is_remark(self.kept.seen(), T::COMMENT) {
            return self.keep_mark();
        }
        let front = without_carriage_return(self.kept.seen());
        if !overflows(front) {
            self.kept.shorten();
            return Ok(());
        }
        self.taker.overflow_decides();
        self.taker.same_is_taken();
        match self.taker.take_line(front) {
            // a line that overflows has a fault
            Ok(()) => Err(Code::BadLine),
            Err(code) => Err(code),
        }
    }

    /// Keeps the beginning of the next line, without blanks that follow a blank, and of a comment only its mark. The fault of a line that overflows is
    /// reported at once.
    fn keep(&mut self, piece: &[u8]) -> Result<(), Code>
        ensures kept { OnOk result ((front : List ℕ) → StandsForFront T.COMMENT front self.old.kept.bytes.items
            → StandsForFront T.COMMENT (front ++ piece.now) self.new.kept.bytes.items) }
        ensures refused { (earlier : List Row) (front : List ℕ) → T.has_taken earlier self.old.taker
            → StandsForFront T.COMMENT front self.old.kept.bytes.items
            → IfErr result (λ code. ByMemory code (IsFaultOfFront T.judge earlier (front ++ piece.now) code) ⊤) }
        ensures some { OnErr result (0 < length piece.now) }
        ensures reads_nothing { IfErr result (λ code. code ≢ Code.Read) }
        ensures taker { OnOk result (self.new.taker ≡ self.old.taker) }
        ensures lines { self.new.lines ≡ self.old.lines }
        ensures until { self.new.until_run ≡ self.old.until_run }
        ensures left { self.new.left ≡ self.old.left }
    {
        if piece.is_empty() {
            return Ok(());
        }
        if self.is_comment() {
            return Ok(());
        }
        if self.kept.is_empty() && is_remark(piece, T::COMMENT) {
            return self.keep_mark();
        }
        self.append_fields(piece)?;
        self.look()
    }

    /// Takes the lines that end in these bytes, and keeps the beginning of the next one. If it is asked to, it stops after the line `run`.
    pub(crate) fn take(&mut self, bytes: &[u8]) -> Result<TakenBytes, Code>
        requires { self.old.lines + length bytes.now < 2 ^ 64 }
        ensures reads_nothing { IfErr result (λ code. code ≢ Code.Read) }
        ensures feeds { (text more : List ℕ)
            → Within T.judge T.has_taken T.COMMENT text (bytes.now ++ more) self.old
            → Feeds T.judge T.has_taken T.COMMENT text bytes.now more self.new result }
        ensures taken { IfOk result (λ part. part.count ≤ length bytes.now) }
        ensures lines { IfOk result (λ part. self.new.lines ≤ self.old.lines + part.count) }
        ensures refused { OnErr result (self.new.lines < self.old.lines + length bytes.now) }
        ensures until { self.new.until_run ≡ self.old.until_run }
        ensures left { self.new.left ≡ self.old.left }
    {
        let mut rest = bytes;
        while let Some((piece, more)) = split_at_feed(rest) {
            if self.take_whole(piece)? {
                return Ok(TakenBytes {
                    count: bytes.len() - more.len(),
                    at_run: true,
                });
            }
            self.lines += 1;
            rest = more;
        }
        self.keep(rest)?;
        Ok(TakenBytes {
            count: bytes.len(),
            at_run: false,
        })
    }

    /// Ends the text. What is kept is its last line.
    pub(crate) fn end(mut self) -> Result<Ended<T>, Fault>
        requires { self.lines + 1 < 2 ^ 64 }
        ensures ends { (text : List ℕ) → Within T.judge T.has_taken T.COMMENT text [] self
            → ReadsLines T.judge T.has_taken self.until_run text (Some []) result }
        ensures reads_nothing { IfErr result (λ fault. fault.code ≢ Code.Read) }
    {
        let mut at_run = false;
        if !self.kept.is_empty() {
            match self.take_whole(b"") {
                Ok(is_run) => {
                    at_run = is_run;
                    if !is_run {
                        self.lines += 1;
                    }
                }
                Err(code) => {
                    return Err(Fault {
                        line: self.lines + 1,
                        code,
                    });
                }
            }
        }
        Ok(self.ended(at_run))
    }

    pub(crate) fn ended(self, at_run: bool) -> Ended<T>
        ensures { result ≡ record { taker = self.taker; lines = self.lines; at_run = at_run } }
    {
        let Feed {
            taker,
            kept: _,
            lines,
            until_run: _,
            left: _,
        } = self;
        Ended {
            taker,
            lines,
            at_run,
        }
    }
}

/// Takes the lines of a text, up to the first that has a fault. The value that takes them has taken none yet.
pub(crate) fn parse_lines<T: TakeLines>(taker: T, bytes: &[u8]) -> Result<Ended<T>, Fault>
    requires { T.has_taken [] taker }
    ensures { GivesLines T.judge T.has_taken bytes.now InMemory result }
{
    let mut taker = taker;
    let mut lines = 0u64;
    let mut rest = bytes;
    while let Some((line, more)) = split_line(rest) {
        if let Err(code) = taker.take_line(line) {
            return Err(Fault {
                line: lines + 1,
                code,
            });
        }
        lines += 1;
        rest = more;
    }
    Ok(Ended {
        taker,
        lines,
        at_run: false,
    })
}

/// Takes the lines of a reader, up to the first that has a fault; or, if it is to read until a line `run`, up to that line and without it, and then the
/// bytes after it are still in the reader. The value that takes them has taken none yet. After an `Err` the reader is not used again.
pub(crate) fn read_lines<T: TakeLines, R: BufRead>(
    alloc: Global,
    counted: &mut Counted<'_, R>,
    until_run: bool,
    taker: T,
) -> Result<Ended<T>, Fault>
    requires { T.has_taken [] taker }
    ensures read { IfSome (R.remaining (reader_of counted.old))
        (λ text. ReadsLines T.judge T.has_taken until_run text (R.remaining (reader_of counted.new)) result) }
    ensures lines { IfOk result (HasTakenSome T.judge T.has_taken) }
    ensures counts { CountsFailures (failed_calls counted.old) (failed_calls counted.new) result }
    ensures same { IsSameReader counted.old counted.new }
{
    let mut feed = Feed {
        taker,
        kept: LineFront::new(alloc),
        lines: 0,
        until_run,
        left: u64::MAX - 1,
    };
    loop {
        match counted.turn(&mut feed) {
            Turn::Failed => {
                return Err(Fault {
                    line: feed.lines + 1,
                    code: Code::Read,
                });
            }
            Turn::AtEnd => return feed.end(),
            Turn::Took(part) => {
                if part.at_run {
                    return Ok(feed.ended(true));
                }
            }
            Turn::Refused(code) => {
                return Err(Fault {
                    line: feed.lines + 1,
                    code,
                });
            }
        }
    }
}
