// Checkpoints.
ghost use Rattle.std.specs.Prelude.{◌≡◌, ◌≢◌, ◌*◌, ◌<◌, ◌≤◌, ◌↔◌, true, false, None, IfErr};
ghost use Rattle.disk.specs.Contents.{Rose};
ghost use Rattle.pagereader.specs.Outcomes.{failures_told};
ghost use Rattle.disk.specs.Moments.{AddsNothing};
ghost use Rattle.roadnet.specs.declared.refusals.Refusal.TheVariants.{Device as device, OutOfMemory as out_of_memory};
ghost use Rattle.machine.specs.Machine.{IsState};
ghost use Rattle.machine.specs.Calls.{StepsCheckpoint, has_nothing_unchecked};
ghost use Rattle.machine.specs.Lives.{Checkpoints};
ghost use Rattle.keeper.specs.Keeping.{IsDurableIn, LeavesAtAnyMoment};
ghost use Rattle.keeper.specs.Parts.{told_step};

use crate::ledger::ledgers::{Ledger, has_failed};
use disk::Disk;
use machine::PAGES_OF_STEP;
use roadnet::Refusal;
use std::snapshot::Snapshot;
use store::Part;

/// A checkpoint has at most 196,930 pages to write, so this many steps of 64 are always enough.
const MOST_STEPS: u32 = 3078;

impl<D: Disk> Ledger<D> {
    /// A step of a checkpoint of the durable network, of at most this many pages, 1 to 64. Returns `Done` with the version that the checkpoint holds, or
    /// `Going` if some of its pages are left. If no checkpoint is going, one begins, of the network that is durable then. If, besides, no page is
    /// unchecked, nothing is done.
    ///
    /// It is refused if the store is broken (45); then for lack of memory (11) when a checkpoint would begin, before any call of the disk; then if the disk
    /// fails (43), after which the store is broken. After any other refusal nothing has changed.
    ///
    /// If `examples/six.gr` has no room for more arcs, a slot has one page after its head: with version 1 durable a step returns `Done(1)`, and then no
    /// page is unchecked. If it has three, a step of 1 page returns `Going`, and one of 64 after it `Done(1)`, even if version 2 has become durable in
    /// between.
    pub fn checkpoint_step(&mut self, pages: u32) -> Result<Part, Refusal>
        requires some { 1 ≤ pages }
        requires few { pages ≤ 64 }
        ensures step { StepsCheckpoint self.old.machine pages (told_step result) self.new.machine }
        // If no checkpoint is going and no page is unchecked, nothing is changed, not even on the disk.
        ensures nothing { self.old.machine.broken ≡ false → has_nothing_unchecked self.old.machine ≡ true → self.new ≡ self.old }
        ensures same { IfErr result (λ refusal. refusal ≢ device → self.new ≡ self.old) }
        ensures memory { IfErr result (λ refusal. refusal ≡ out_of_memory → self.old.machine.checkpoint ≡ None) }
        // The count of failures rises by one if 43 is reported, and otherwise not at all: no failure goes unreported.
        ensures counted { D.failures self.new.disk ≡ failures_told result (D.failures self.old.disk) }
        ensures failed { IfErr result (λ refusal. refusal ≡ device → Rose (D.failures self.old.disk) (D.failures self.new.disk)) }
        ensures given { self.new.given ≡ self.old.given }
        ensures adds_nothing { self.old.machine.broken ≡ true → AddsNothing D.moment D.left_since self.old.disk self.new.disk }
        // A stop during the call leaves content that stands for what is durable.
        ensures any_moment { LeavesAtAnyMoment D.Disk (IsDurableIn self.old.machine) self.old.machine self.old.given self.old.disk self.new.disk }
        ensures honest { D.honest self.new.disk ↔ D.honest self.old.disk }
    {
        if self.broken {
            return Err(Refusal::Broken);
        }
        self.written = Snapshot::of(&0);
        let written = self.store.checkpoint_part(pages);
        self.broken = has_failed(&written);
        written
    }

    /// Makes steps of 64 pages until the checkpoint is done: the one that is going, or otherwise a new one. Returns the version that it holds.
    ///
    /// It is refused as a step is. After 45 and 11 nothing has changed.
    ///
    /// With versions 1 and 2 made durable by a flush each and no checkpoint going, it returns 2.
    pub fn checkpoint(&mut self) -> Result<u64, Refusal>
        ensures does { Checkpoints self.old.machine result self.new.machine }
        ensures same { IfErr result (λ refusal. refusal ≢ device → self.new ≡ self.old) }
        ensures counted { D.failures self.new.disk ≡ failures_told result (D.failures self.old.disk) }
        ensures given { self.new.given ≡ self.old.given }
        ensures adds_nothing { self.old.machine.broken ≡ true → AddsNothing D.moment D.left_since self.old.disk self.new.disk }
        // A stop during the call leaves content that stands for what is durable.
        ensures any_moment { LeavesAtAnyMoment D.Disk (IsDurableIn self.old.machine) self.old.machine self.old.given self.old.disk self.new.disk }
        ensures honest { D.honest self.new.disk ↔ D.honest self.old.disk }
    {
        self.holds_durable();
        for _ in 0..self.most_steps() {
            match self.checkpoint_step(PAGES_OF_STEP)? {
                Part::Going => {}
                Part::Done(version) => return Ok(version),
            }
        }
        unreachable!()
    }

    // How many steps of 64 pages are enough for any checkpoint of this store.
    fn most_steps(&self) -> u32
        ensures enough { self.now.machine.sizes.checkpoint_pages < 64 * result }
        ensures state { IsState self.now.machine }
    {
        let _ = self.store.version();
        MOST_STEPS
    }
}
