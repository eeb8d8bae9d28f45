// Groups accepted and made durable, and checkpoints: the ledger's calls, which leave the view and the task as they are.
ghost use Rattle.std.specs.Prelude.{◌≡◌, ◌≢◌, ◌≤◌, ◌↔◌, ◌∷◌, [], true, false, None, IfErr};
ghost use Rattle.disk.specs.Contents.{Rose};
ghost use Rattle.pagereader.specs.Outcomes.{failures_told};
ghost use Rattle.disk.specs.Moments.{AddsNothing};
ghost use Rattle.roadnet.specs.declared.refusals.Refusal.TheVariants.{Device as device, OutOfMemory as out_of_memory};
ghost use Rattle.machine.specs.Calls.{Submits, Flushes, StepsCheckpoint, has_nothing_unchecked};
ghost use Rattle.machine.specs.Lives.{Checkpoints};
ghost use Rattle.keeper.specs.Keeping.{IsDurableIn, IsLeftByFlush, LeavesAtAnyMoment};
ghost use Rattle.keeper.specs.Parts.{ticket_for, told_step};

use crate::keeper::keepers::Keeper;
use disk::Disk;
use machine::Ticket;
use roadnet::{Command, Group, Refusal};
use store::Part;

impl<D: Disk> Keeper<D> {
    /// Accepts the group with the next number, and is refused, as `Ledger::submit_group` says.
    pub fn submit_group(&mut self, group: Group) -> Result<Ticket, Refusal>
        ensures step { Submits self.old.machine group result self.new.machine }
        ensures disk { self.new.disk ≡ self.old.disk }
        ensures given { self.new.given ≡ self.old.given }
        ensures width { self.new.width ≡ self.old.width }
    {
        self.ledger.submit_group(group)
    }

    /// Accepts the command as a group of one, as `submit_group` does.
    ///
    /// On a new store of `examples/six.gr`, `Close { arc: 7 }` is accepted with number 1. The same command once more is `AlreadyClosed`.
    pub fn submit(&mut self, command: Command) -> Result<Ticket, Refusal>
        ensures step { Submits self.old.machine (command ∷ []) result self.new.machine }
        ensures disk { self.new.disk ≡ self.old.disk }
        ensures given { self.new.given ≡ self.old.given }
        ensures width { self.new.width ≡ self.old.width }
    {
        self.submit_group(Group::one(command))
    }

    /// Accepts a copy of the group, as `submit_group` does, and returns its number.
    pub fn submit_copy(&mut self, group: &Group) -> Result<u64, Refusal>
        ensures step { Submits self.old.machine group.now (ticket_for group.now result) self.new.machine }
        ensures disk { self.new.disk ≡ self.old.disk }
        ensures given { self.new.given ≡ self.old.given }
        ensures width { self.new.width ≡ self.old.width }
    {
        self.ledger.submit_copy(group)
    }

    /// Makes the first pending groups durable, and is refused, as `Ledger::flush` says. Returns the durable version.
    pub fn flush(&mut self) -> Result<u64, Refusal>
        ensures step { Flushes self.old.machine result self.new.machine }
        ensures same { IfErr result (λ refusal. refusal ≢ device → self.new ≡ self.old) }
        // The count of failures rises by one if 43 is reported, and otherwise not at all: no failure goes unreported.
        ensures counted { D.failures self.new.disk ≡ failures_told result (D.failures self.old.disk) }
        ensures failed { IfErr result (λ refusal. refusal ≡ device → Rose (D.failures self.old.disk) (D.failures self.new.disk)) }
        ensures given { self.new.given ≡ self.old.given }
        ensures width { self.new.width ≡ self.old.width }
        ensures adds_nothing { self.old.machine.broken ≡ true → AddsNothing D.moment D.left_since self.old.disk self.new.disk }
        // A stop during the call leaves what a failed flush may leave.
        ensures any_moment { LeavesAtAnyMoment D.Disk (IsLeftByFlush self.old.machine) self.old.machine self.old.given self.old.disk self.new.disk }
        ensures honest { D.honest self.new.disk ↔ D.honest self.old.disk }
    {
        self.ledger.flush()
    }

    /// A step of a checkpoint of at most this many pages, 1 to 64, as `Ledger::checkpoint_step` says.
    pub fn checkpoint_step(&mut self, pages: u32) -> Result<Part, Refusal>
        requires some { 1 ≤ pages }
        requires few { pages ≤ 64 }
        ensures step { StepsCheckpoint self.old.machine pages (told_step result) self.new.machine }
        // If no checkpoint is going and no page is unchecked, nothing is changed, not even on the disk.
        ensures nothing { self.old.machine.broken ≡ false → has_nothing_unchecked self.old.machine ≡ true → self.new ≡ self.old }
        ensures same { IfErr result (λ refusal. refusal ≢ device → self.new ≡ self.old) }
        ensures memory { IfErr result (λ refusal. refusal ≡ out_of_memory → self.old.machine.checkpoint ≡ None) }
        // The count of failures rises by one if 43 is reported, and otherwise not at all: no failure goes unreported.
        ensures counted { D.failures self.new.disk ≡ failures_told result (D.failures self.old.disk) }
        ensures failed { IfErr result (λ refusal. refusal ≡ device → Rose (D.failures self.old.disk) (D.failures self.new.disk)) }
        ensures given { self.new.given ≡ self.old.given }
        ensures width { self.new.width ≡ self.old.width }
        ensures adds_nothing { self.old.machine.broken ≡ true → AddsNothing D.moment D.left_since self.old.disk self.new.disk }
        // A stop during the call leaves content that stands for what is durable.
        ensures any_moment { LeavesAtAnyMoment D.Disk (IsDurableIn self.old.machine) self.old.machine self.old.given self.old.disk self.new.disk }
        ensures honest { D.honest self.new.disk ↔ D.honest self.old.disk }
    {
        self.ledger.checkpoint_step(pages)
    }

    /// Makes steps of 64 pages until the checkpoint is done, as `Ledger::checkpoint` does. Returns the version that it holds.
    pub fn checkpoint(&mut self) -> Result<u64, Refusal>
        ensures does { Checkpoints self.old.machine result self.new.machine }
        ensures same { IfErr result (λ refusal. refusal ≢ device → self.new ≡ self.old) }
        ensures counted { D.failures self.new.disk ≡ failures_told result (D.failures self.old.disk) }
        ensures given { self.new.given ≡ self.old.given }
        ensures width { self.new.width ≡ self.old.width }
        ensures adds_nothing { self.old.machine.broken ≡ true → AddsNothing D.moment D.left_since self.old.disk self.new.disk }
        // A stop during the call leaves content that stands for what is durable.
        ensures any_moment { LeavesAtAnyMoment D.Disk (IsDurableIn self.old.machine) self.old.machine self.old.given self.old.disk self.new.disk }
        ensures honest { D.honest self.new.disk ↔ D.honest self.old.disk }
    {
        self.ledger.checkpoint()
    }
}
