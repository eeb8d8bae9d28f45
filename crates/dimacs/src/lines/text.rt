//! Where a text comes from.
ghost use Rattle.std.specs.Prelude.{◌≡◌, [], ℕ, List, Option, IfOk, IfSome};
ghost use Rattle.dimacs.specs.Counts.{CountsFailures};
ghost use Rattle.dimacs.specs.Ends.{HasTakenSome};
ghost use Rattle.dimacs.specs.Texts.{Source, IsUnread, GivesLines};

use crate::fault::Fault;
use crate::lines::counted::Counted;
use crate::lines::feed::{Ended, parse_lines, read_lines};
use crate::lines::taking::TakeLines;
use std::alloc::Global;
use std::io::BufRead;

/// A text to be read: bytes in memory, or those of a reader whose failed calls are counted.
pub trait Text {
    /// The bytes to be read, if they are known.
    ghost bytes: { Self → Option (List ℕ) };

    /// Where they come from.
    ghost source: { Self → Source };

    /// How many calls of the reader have failed; 0 for a text in memory.
    ghost failures: { Self → ℕ };

    /// The name of the reader. For a text in memory it says nothing.
    ghost reader: { Self → ℕ };

    /// Gives the lines, one after another and up to the first that has a fault, to a value that has taken none yet. After an `Err` the text is not used
    /// again.
    fn give_lines<T: TakeLines>(&mut self, alloc: Global, taker: T) -> Result<Ended<T>, Fault>
        requires { T.has_taken [] taker }
        ensures read { IfSome (bytes self.old) (λ text. GivesLines T.judge T.has_taken text (source self.new) result) }
        ensures lines { IfOk result (HasTakenSome T.judge T.has_taken) }
        ensures counts { CountsFailures (failures self.old) (failures self.new) result }
        ensures same { reader self.new ≡ reader self.old };

    // a text is whole before it is read
    ghost is_unread: { (text : Self) → IfSome (bytes text) (λ all. IsUnread all (source text)) };
}

impl Text for &[u8] {
    ghost use Rattle.std.specs.Prelude.{Some};
    ghost use Rattle.dimacs.specs.Texts.{InMemory};

    ghost bytes = { λ text. Some text.now };

    ghost source = { λ text. InMemory };

    ghost failures = { λ text. 0 };

    ghost reader = { λ text. 0 };

    fn give_lines<T: TakeLines>(&mut self, _alloc: Global, taker: T) -> Result<Ended<T>, Fault> {
        let bytes: &[u8] = *self;
        parse_lines(taker, bytes)
    }

    ghost is_unread = { λ text. tt };
}

impl<R: BufRead> Text for Counted<'_, R> {
    ghost use Rattle.std.specs.Prelude.{refl, None, Some};
    ghost use Rattle.dimacs.specs.Counts.{failed_calls, reader_of};
    ghost use Rattle.dimacs.specs.Texts.{OfReader};

    ghost bytes = { λ counted. R.remaining (reader_of counted) };

    ghost source = { λ counted. OfReader (R.remaining (reader_of counted)) };

    ghost failures = { λ counted. failed_calls counted };

    ghost reader = { λ counted. counted.reader.ghost_name };

    fn give_lines<T: TakeLines>(&mut self, alloc: Global, taker: T) -> Result<Ended<T>, Fault> {
        read_lines(alloc, self, false, taker)
    }

    ghost is_unread = { let whole : (left : Option (List ℕ)) → IfSome left (λ all. left ≡ Some all) = elim [ None ↦ tt | Some all ↦ refl ] in
        λ counted. whole (R.remaining (reader_of counted)) };
}
