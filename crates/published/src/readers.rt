ghost use Rattle.std.specs.Prelude.{◌≡◌, ◌⊎◌, ◌+◌, length, Some, IsSome, IfOk, IfErr};
ghost use mathlib.Core.List.{IsPrefix};
ghost use Rattle.left_right.specs.Sides.{view as seat_view};
ghost use Rattle.history.specs.Origins.{Beginning};
ghost use Rattle.roadnet.specs.Step.{after};
ghost use Rattle.published.specs.Showing.{IsUnseen};
ghost use Rattle.published.specs.Rules.{SeatFollows};

use crate::published::Published;
use crate::rules::{Sees, Shows};
use crate::seats::Seat;
use crate::shown::Shown;
use core::mem::replace_with;
use history::Front;
use left_right::reader;
use roadnet::Refusal;
use rows::View;
use std::marker::Model;
use std::sync::Arc;

pub(crate) type SeatedReader = reader::Reader<Published, Option<Front>, Shows>;

/// A reader of what is shown. Contracts see it as the groups that it has seen or learned of, with the desk.
#[derive(Drop)]
pub struct ShownReader {
    pub(crate) reader: SeatedReader,
    /// What it has seen. By the rule of the copy, what is shown begins with this.
    pub(crate) seen: Front,
    /// What it has learned since, if that is longer.
    pub(crate) learned: Option<Front>,
    /// Its place, as long as the reader exists.
    pub(crate) _seat: Seat,
}

impl Model for ShownReader {
    ghost use Rattle.std.specs.Prelude.{◌≡◌, Some, IfSome, unwrap_or};
    ghost use Rattle.left_right.specs.Sides.{view as seat_view};
    ghost use Rattle.history.specs.Origins.{Beginning};
    ghost use Rattle.published.specs.Rules.{SeatFollows};

    ghost Value = { Beginning };

    ghost view = { λ r. unwrap_or r.learned r.seen };

    ghost invariant = { λ r. ((seat : Beginning) × (seat_view r.reader.place ≡ Some seat) × SeatFollows (Some r.seen) seat) × IfSome r.learned (λ learned. SeatFollows (Some r.seen) learned) };
}

/// Enters the published copy, and takes a share of the view.
fn enter(reader: SeatedReader) -> (SeatedReader, Result<Published, Refusal>)
    requires { IsSome (seat_view reader.place) }
    ensures seat { (now : Beginning) × (seat_view result.0.place ≡ Some now) × SeatFollows (seat_view reader.place) now × IfOk result.1 (λ taken. taken.shown ≡ now) }
    ensures causes { IfErr result.1 IsUnseen }
{
    match reader.enter_as::<Sees>() {
        Ok(reading) => {
            let shown = reading.get();
            let taken = match Arc::try_clone(&shown.view) {
                Ok(view) => Ok(Published::new(view, shown.groups.again())),
                Err(_) => Err(Refusal::OutOfMemory),
            };
            (reading.leave(), taken)
        }
        Err(reader) => (reader, Err(Refusal::Closed)),
    }
}

/// Enters through the seat of a reader that has seen these groups: what is shown begins with them.
fn enter_behind(reader: &mut SeatedReader, seen: &Front) -> Result<Published, Refusal>
    requires { (seat : Beginning) × (seat_view reader.old.place ≡ Some seat) × SeatFollows (Some seen.now) seat }
    ensures seat { (seat : Beginning) × (seat_view reader.new.place ≡ Some seat) × SeatFollows (Some seen.now) seat }
    ensures shown { IfOk result (λ taken. (seat_view reader.new.place ≡ Some taken.shown) × SeatFollows (Some seen.now) taken.shown) }
    ensures causes { IfErr result IsUnseen }
{
    replace_with(reader, (), |reader, ()| enter(reader))
}

impl ShownReader {
    /// The front of the history that it has seen or learned of.
    pub fn known(&self) -> &Front
        ensures { result.now ≡ self.now }
    {
        match &self.learned {
            Some(learned) => learned,
            None => &self.seen,
        }
    }

    /// The shown view. The groups after which it is shown begin with everything that the reader has seen and learned of. Afterwards the reader has seen
    /// them. It takes no lock and waits for nobody.
    ///
    /// It fails with 11 if there is no memory for a share of the view, and with 61 if the copy cannot be entered, as after closing.
    pub fn look(&mut self) -> Result<Arc<View>, Refusal>
        ensures network { IfOk result (λ view. after self.old.origin.base self.new.groups ≡ Some view.value.network) }
        ensures version { IfOk result (λ view. view.value.version ≡ self.old.origin.version + length self.new.groups) }
        ensures begins { IsPrefix self.old.groups self.new.groups }
        ensures origin { self.new.origin ≡ self.old.origin }
        ensures refused { IfErr result (λ _. self.new ≡ self.old) }
        ensures causes { IfErr result IsUnseen }
    {
        let Published { view, groups } = enter_behind(&mut self.reader, &self.seen)?;
        if let Some(learned) = &self.learned {
            if !learned.begins(&groups) {
                return Err(Refusal::Closed);
            }
        }
        self.seen = groups;
        self.learned = None;
        Ok(view)
    }

    /// Takes in what was shown: the reader then knows the longer of both lists of groups, which begins with the other. It takes no lock and waits for
    /// nobody.
    pub fn learn(&mut self, shown: &Shown)
        requires { shown.now.origin ≡ self.old.origin }
        ensures one { (self.new ≡ self.old) ⊎ (self.new ≡ shown.now) }
        ensures this { IsPrefix self.old.groups self.new.groups }
        ensures that { IsPrefix shown.now.groups self.new.groups }
    {
        if self.known().begins(&shown.groups) {
            self.learned = Some(shown.groups.again());
        }
    }
}
