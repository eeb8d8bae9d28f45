//! A value that takes the lines of a text, one after another.
ghost use Rattle.std.specs.Prelude.{◌≡◌, ◌≢◌, IfErr, ◌++◌, ◌∷◌, [], ℕ, List, None, Some, true, false, ◌==◌};
ghost use Rattle.dimacs.specs.Lines.{fields, is_blank};
ghost use Rattle.dimacs.specs.Faults.{Row, Judge, is_remark};
ghost use Rattle.dimacs.specs.Taking.{Takes};
ghost use Rattle.dimacs.specs.Overflow.{overflows};
ghost use Rattle.dimacs.specs.Alike.{SaySame};
ghost use Rattle.dimacs.specs.Progress.{TakesOrRuns};
ghost use Rattle.dimacs.specs.declared.fault.Code.{Code};

use crate::fault::Code;
use crate::lines::line::is_run;

/// A kind of text: it judges each line after the lines before it, and keeps what they say.
pub trait TakeLines: Drop {
    // the code of a line after earlier lines, or none
    ghost judge: { Judge };

    // the value that was given these lines, in none of which there is a fault
    ghost has_taken: { List Row → Self → Type 0 };

    // the byte with which a comment begins
    ghost COMMENT: { ℕ };

    // the code of a line after earlier lines that overflows after these fields
    ghost code_of_overflow: { List Row → Row → Code };

    /// A line whose first byte, blanks apart, is this one is a comment.
    const COMMENT: u8;

    /// Takes the next line, without its line feed and without one carriage return before that. It fails with `OutOfMemory` only if the line has no fault.
    /// After an `Err` the value is not used again.
    fn take_line(&mut self, line: &[u8]) -> Result<(), Code>
        ensures takes { (earlier : List Row) → has_taken earlier self.old
            → Takes judge has_taken earlier (fields line.now) self.new result }
        ensures reads_nothing { IfErr result (λ code. code ≢ Code.Read) };

    /// Skips the next line, which is a comment.
    fn pass_comment(&mut self)
        ensures { (earlier : List Row) (row : Row) → is_remark COMMENT row ≡ true → has_taken earlier self.old
            → (judge earlier row ≡ None) × has_taken (earlier ++ row ∷ []) self.new };

    /// A law, without code: what follows the field in which a line overflows does not change the line's fault.
    fn overflow_decides(&self)
        ensures { (earlier : List Row) (before : Row) (field : List ℕ) (after : Row) → overflows before field ≡ true
            → is_remark COMMENT (before ++ field ∷ after) ≡ false
            → judge earlier (before ++ field ∷ after) ≡ Some (code_of_overflow earlier before) };

    /// A law, without code: lines that say the same have the same fault. If they have none, a value that took one has taken the other.
    fn same_is_taken(&self)
        ensures judged { (earlier : List Row) (one other : Row) → SaySame one other → judge earlier one ≡ judge earlier other }
        ensures taken { (earlier : List Row) (one other : Row) (value : Self) → SaySame one other → judge earlier one ≡ None
            → has_taken (earlier ++ other ∷ []) value → has_taken (earlier ++ one ∷ []) value };

    // no comment is the line `run`, nor begins with a carriage return or a blank
    ghost run_is_no_comment: { (114 == COMMENT) ≡ false };

    ghost return_is_no_comment: { (13 == COMMENT) ≡ false };

    ghost blank_is_no_comment: { is_blank COMMENT ≡ false };
}

/// Takes a line, unless it is the line `run` at which to stop. Returns whether it is that line.
pub(crate) fn take_or_run<T: TakeLines>(
    taker: &mut T,
    until_run: bool,
    line: &[u8],
) -> Result<bool, Code>
    ensures reads_nothing { IfErr result (λ code. code ≢ Code.Read) }
    ensures takes { (earlier : List Row) → T.has_taken earlier taker.old
        → TakesOrRuns T.judge T.has_taken until_run earlier (fields line.now) taker.new result }
{
    if until_run && is_run(line) {
        return Ok(true);
    }
    taker.take_line(line)?;
    Ok(false)
}
