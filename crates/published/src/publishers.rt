ghost use Rattle.std.specs.Prelude.{◌≡◌, [], Some, drop, IfOk, IfErr, MatchResult};
ghost use mathlib.Core.List.{IsPrefix};
ghost use Rattle.left_right.specs.Sides.{view as seat_view};
ghost use Rattle.roadnet.specs.declared.refusals.Refusal.TheVariants.{NoReaderPlace as no_reader_place};
ghost use Rattle.published.specs.Rules.{SeatFollows, last_of};

use crate::published::Published;
use crate::readers::ShownReader;
use crate::rules::{NamesReader, Sees, Shows};
use crate::seats::Seat;
use crate::shown::Shown;
use core::mem::replace_with;
use history::Front;
use left_right::writer::Writer;
use roadnet::{OutOfMemory, Refusal};
use std::alloc::{AllocError, Global};
use std::marker::Model;
use std::mem::ManuallyDrop;
use std::sync::atomic::{AtomicU64, Ordering};
use std::sync::{Arc, Wait};

/// A value that shows views to readers. Contracts see it as the groups of what is shown, with the view.
pub struct Publisher {
    writer: Copies,
    /// How many readers there are.
    taken: Arc<AtomicU64>,
}

impl Model for Publisher {
    ghost use Rattle.std.specs.Prelude.{◌≡◌, Some};
    ghost use Rattle.left_right.specs.Sides.{view as seat_view};
    ghost use Rattle.published.specs.Showing.{Showing};

    ghost Value = { Showing };

    ghost view = { λ p. p.writer.desk.shown.value };

    ghost invariant = { λ p. seat_view p.writer.desk.place ≡ Some p.writer.desk.shown.value.shown };
}

/// How many readers there may be at once.
const READERS: usize = 64;

type Copies = Writer<Published, Published, Option<Front>, Shows>;

/// Shows the last pending view.
fn show<R: Wait>(rt: &R, writer: Copies) -> (Copies, Result<(), AllocError>)
    requires seated { seat_view writer.desk.place ≡ Some writer.desk.shown.value.shown }
    requires pending { SeatFollows (Some writer.desk.shown.value.shown) (last_of writer.desk.shown.value (drop writer.behind writer.log.items)).shown }
    ensures seated { seat_view result.0.desk.place ≡ Some result.0.desk.shown.value.shown }
    ensures values { MatchResult result.1 (λ _. result.0.desk.shown.value ≡ last_of writer.desk.shown.value (drop writer.behind writer.log.items)) (λ _. result.0.desk.shown.value ≡ writer.desk.shown.value) }
    ensures settled { IfOk result.1 (λ _. drop result.0.behind result.0.log.items ≡ []) }
{
    writer.publish_as::<Sees, R>(rt)
}

/// Shows the shown view once more, so that both copies have it and neither keeps the earlier view. It waits for those who read the copy that was shown
/// until now. If there is no memory, the earlier view is kept until the next switch.
fn show_again<R: Wait>(rt: &R, writer: Copies) -> Copies
    requires seated { seat_view writer.desk.place ≡ Some writer.desk.shown.value.shown }
    requires settled { drop writer.behind writer.log.items ≡ [] }
    ensures seated { seat_view result.desk.place ≡ Some result.desk.shown.value.shown }
    ensures same { result.desk.shown.value ≡ writer.desk.shown.value }
{
    let (writer, _) = show(rt, writer);
    writer
}

/// Shows a view after those that are pending.
fn show_next<R: Wait>(
    rt: &R,
    mut writer: Copies,
    next: Published,
) -> (Copies, Result<(), OutOfMemory>)
    requires seated { seat_view writer.desk.place ≡ Some writer.desk.shown.value.shown }
    requires next { SeatFollows (Some writer.desk.shown.value.shown) next.shown }
    ensures seated { seat_view result.0.desk.place ≡ Some result.0.desk.shown.value.shown }
    ensures values { MatchResult result.1 (λ _. result.0.desk.shown.value ≡ next) (λ _. result.0.desk.shown.value ≡ writer.desk.shown.value) }
{
    match writer.append(next) {
        Ok(()) => match show(rt, writer) {
            (writer, Ok(())) => (show_again(rt, writer), Ok(())),
            (writer, Err(_)) => (writer, Err(OutOfMemory)),
        },
        Err(_) => (writer, Err(OutOfMemory)),
    }
}

impl Publisher {
    /// A publisher that shows this view, with room for 64 readers.
    pub fn new<R: Wait>(rt: &R, alloc: Global, first: Published) -> Result<Publisher, OutOfMemory>
        ensures { IfOk result (λ publisher. publisher ≡ first) }
    {
        let Ok(view) = Arc::try_clone(&first.view) else {
            return Err(OutOfMemory);
        };
        let Ok(taken) = Arc::new(alloc, AtomicU64::new(0)) else {
            return Err(OutOfMemory);
        };
        let second = Published::new(view, first.groups.again());
        let Ok(writer) = Writer::new(alloc, first, second, READERS) else {
            return Err(OutOfMemory);
        };
        let (writer, seen) = writer.publish_as::<Sees, R>(rt);
        match seen {
            Ok(()) => Ok(Publisher { writer, taken }),
            Err(_) => {
                writer.take(rt);
                Err(OutOfMemory)
            }
        }
    }

    /// Shows the view in place of the earlier one, which only those keep who have a share of it. It waits for readers who are taking their share.
    ///
    /// The only error is lack of memory. Then readers see what they saw, and the view stays pending; a later switch skips it.
    pub fn switch<R: Wait>(&mut self, rt: &R, next: Published) -> Result<(), OutOfMemory>
        requires desk { next.shown.origin ≡ self.old.shown.origin }
        requires begins { IsPrefix self.old.shown.groups next.shown.groups }
        ensures { MatchResult result (λ _. self.new ≡ next) (λ _. self.new ≡ self.old) }
    {
        replace_with(&mut self.writer, next, |writer, next| {
            show_next(rt, writer, next)
        })
    }

    /// Returns what is shown, as readers can learn it.
    pub fn tell(&self) -> Shown
        ensures { result ≡ self.now.shown }
    {
        Shown {
            groups: self.writer.published().groups.again(),
        }
    }

    /// A reader of this desk that has not seen any group.
    ///
    /// It fails with 60 if each place is taken. While it looks nobody else takes one.
    pub fn reader(&mut self) -> Result<ShownReader, Refusal>
        ensures same { self.new ≡ self.old }
        ensures reader { IfOk result (λ reader. (reader.origin ≡ self.old.shown.origin) × (reader.groups ≡ [])) }
        ensures causes { IfErr result (λ refusal. refusal ≡ no_reader_place) }
    {
        let Ok(seat) = Seat::take(&self.taken) else {
            return Err(Refusal::NoReaderPlace);
        };
        let Ok(mut reader) = self.writer.factory().reader() else {
            return Err(Refusal::NoReaderPlace);
        };
        reader.learn::<NamesReader>(self.writer.tell::<NamesReader>());
        Ok(ShownReader {
            reader,
            seen: self.writer.published().groups.first(0),
            learned: None,
            _seat: seat,
        })
    }

    /// How many readers there are at this moment. They come and go without the publisher, so a moment later there may be more or fewer.
    pub fn readers(&self) -> u64 {
        self.taken.load(Ordering::SeqCst)
    }

    /// Closes the copies, once their readers have left them. Readers can no longer enter.
    pub fn close<R: Wait>(self, rt: &R) {
        let Publisher { writer, taken: _ } = self;
        writer.take(rt);
    }
}

/// A publisher that is dropped without `close` leaks its copies: only `close` may wait for their readers.
impl Drop for Publisher {
    fn drop(self) {
        let Publisher { writer, taken: _ } = self;
        let _leaked = unsafe { ManuallyDrop::new_unchecked(writer) };
    }
}
