// Entries written by pens. Only the holder of a pen may write the one entry that it stands for, so nobody writes an entry in between.
ghost use Rattle.std.specs.Prelude.{◌≡◌};
ghost use Rattle.logbook.specs.Pages.{may_write};
ghost use Rattle.history.specs.Rules.{book_head_of, WritesBehind};

use crate::entries::{Entry, Link};
use crate::rules::{Law, Makes, Nothing, Writes};
use logbook::{Offer, Pen, Seen, Word};
use std::snapshot::Snapshot;

/// A pen that nobody else has, for one entry.
pub(crate) fn new_pen(head: &Word<Link, u64, Law>, seen: &Seen<Link, u64, Law>) -> Pen
    requires head { head.now ≡ book_head_of seen.now.book }
    ensures book { result.book ≡ seen.now.book }
    ensures right { result.nib.right ≡ may_write }
{
    let mut seen = seen.again();
    let mut pen = seen.no_pen();
    // The step writes no entry, so it does not matter which one it asks for.
    let unwritten = Link {
        entry: Entry::Closed,
        pen: Snapshot::of(&pen),
        following: Snapshot::of(&pen),
    };
    let mut offer: Offer<Link, u64, Law, Nothing> = seen.plain::<Nothing, Link, Writes>(&unwritten);
    let _ = head.compare_exchange::<Makes, Nothing>(0, 0, &mut seen, &mut offer, &mut pen);
    let _: Word<Link, u64, Law> = Word::tracked(0, &mut pen);
    pen
}

/// Writes the entry that the pen stands for: after everything that was seen, and after entries of other pens.
pub(crate) fn write(
    head: &Word<Link, u64, Law>,
    seen: &mut Seen<Link, u64, Law>,
    pen: &mut Pen,
    link: &Link,
)
    requires head { head.now ≡ book_head_of seen.old.book }
    requires book { pen.old.book ≡ seen.old.book }
    requires right { pen.old.nib.right ≡ may_write }
    requires own { link.now.pen.value ≡ pen.old }
    ensures written { WritesBehind seen.old.log link.now seen.new.log }
    ensures book { seen.new.book ≡ seen.old.book }
{
    let mut offer: Offer<Link, u64, Law, Nothing> = seen.plain::<Nothing, Link, Writes>(link);
    let _ = head.compare_exchange::<Writes, Nothing>(0, 0, seen, &mut offer, pen);
}
