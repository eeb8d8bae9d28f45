// Groups accepted and made durable.
ghost use Rattle.std.specs.Prelude.{◌≡◌, ◌≢◌, ◌↔◌, true, Ok, Err, IfOk, IfErr, OnErr};
ghost use Rattle.disk.specs.Contents.{Rose};
ghost use Rattle.disk.specs.Moments.{AddsNothing, LeavesOnly};
ghost use Rattle.pagereader.specs.Outcomes.{failures_told};
ghost use Rattle.roadnet.specs.declared.refusals.Refusal.TheVariants.{Device as device};
ghost use Rattle.machine.specs.Calls.{Submits, Flushes};
ghost use Rattle.keeper.specs.Keeping.{IsLeftByFlush};
ghost use Rattle.office.specs.Offices.{WhenTidy};

use crate::naming::Naming;
use crate::offices::Office;
use disk::Disk;
use history::Claim;
use roadnet::{Group, Refusal};

impl<N: Naming, D: Disk> Office<N, D> {
    /// Accepts the group with the next number, as the keeper does, and writes it into the history. The ticket is for this group of this desk.
    ///
    /// It is refused as the keeper's `submit_group` is. Then nothing has changed.
    pub fn submit_group(&mut self, group: Group) -> Result<Claim, Refusal>
        ensures accepted { IfOk result (λ ticket. Submits self.old.machine group (Ok ticket.ticket) self.new.machine) }
        ensures origin { IfOk result (λ ticket. ticket.origin ≡ N.origin) }
        ensures refused { IfErr result (λ refusal. Submits self.old.machine group (Err refusal) self.new.machine) }
        ensures same { OnErr result (self.new ≡ self.old) }
        ensures disk { self.new.disk ≡ self.old.disk }
        ensures given { self.new.given ≡ self.old.given }
        ensures width { self.new.width ≡ self.old.width }
    {
        let _ = self.keeper.opened();
        let ticket = self.keeper.submit_into(&mut self.history, group)?;
        Ok(self.history.claim(ticket))
    }

    /// Makes the first pending groups durable, as many as have at most 253 commands together, as the keeper's `flush` does: all of them or none, whenever a
    /// stop comes. Returns the durable version.
    ///
    /// It is refused, in this order, if the store is broken (45), if nothing is pending (53), if the journal has no free page (44), or for lack of memory
    /// (11); then if the disk fails (43), after which the store is broken. After any other refusal nothing has changed.
    pub fn flush(&mut self) -> Result<u64, Refusal>
        ensures step { Flushes self.old.machine result self.new.machine }
        ensures same { IfErr result (λ refusal. refusal ≢ device → self.new ≡ self.old) }
        ensures counted { D.failures self.new.disk ≡ failures_told result (D.failures self.old.disk) }
        ensures failed { IfErr result (λ refusal. refusal ≡ device → Rose (D.failures self.old.disk) (D.failures self.new.disk)) }
        ensures width { self.new.width ≡ self.old.width }
        ensures given { self.new.given ≡ self.old.given }
        ensures adds_nothing { self.old.machine.broken ≡ true → AddsNothing D.moment D.left_since self.old.disk self.new.disk }
        // A stop during the call leaves what a failed flush may leave.
        ensures any_moment { WhenTidy N.came_tidy self.old (LeavesOnly D.moment D.left_since self.old.disk self.new.disk (IsLeftByFlush self.old.machine)) }
        ensures honest { D.honest self.new.disk ↔ D.honest self.old.disk }
    {
        self.keeper.flush()
    }
}
