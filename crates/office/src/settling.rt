// Receipts, and what was shown since a ticket.
ghost use Rattle.std.specs.Prelude.{◌≡◌, ◌<◌, if◌then◌else◌, Ok, IfSome, IfNone, IfOk, IfErr, OnOk};
ghost use Rattle.roadnet.specs.declared.refusals.Refusal.TheVariants.{Broken as broken, NotYet as not_yet};
ghost use Rattle.machine.specs.Machine.{groups_to};
ghost use Rattle.machine.specs.Calls.{IsTicketOf, receipt_for};
ghost use Rattle.machine.specs.Laws.{IsAt};
ghost use Rattle.office.specs.Offices.{receipt_of, refused_for};

use crate::naming::Naming;
use crate::offices::Office;
use disk::Disk;
use history::{Claim, Settled};
use published::Shown;
use roadnet::Refusal;

impl<N: Naming, D: Disk> Office<N, D> {
    /// Why there is no receipt for a number that is not durable.
    fn unmade(&self) -> Refusal
        ensures { result ≡ (if self.now.machine.broken then broken else not_yet) }
    {
        if self.keeper.broken() {
            Refusal::Broken
        } else {
            Refusal::NotYet
        }
    }

    /// A receipt for the ticket, which is of this desk, if its group is durable, as the keeper's: no stop takes it back.
    ///
    /// If the number is not durable, it is refused with 45 if the store is broken, otherwise with 54. Then the ticket is handed back.
    pub fn receipt(&mut self, ticket: Claim) -> Result<Settled, (Refusal, Claim)>
        requires { ticket.origin ≡ N.origin }
        ensures step { OnOk result (receipt_for self.old.machine ticket.ticket ≡ Ok (receipt_of ticket.ticket)) }
        ensures there { OnOk result (IsTicketOf self.old.machine ticket.ticket) }
        ensures receipt { IfOk result (λ receipt. receipt ≡ ticket) }
        ensures refused { IfErr result (λ refused. receipt_for self.old.machine ticket.ticket ≡ refused_for ticket.ticket refused.0) }
        ensures handed_back { IfErr result (λ refused. refused.1 ≡ ticket) }
        ensures same { self.new ≡ self.old }
    {
        let _ = self.keeper.opened();
        if !self.history.holds(&ticket) {
            return Err((self.unmade(), ticket));
        }
        if self.keeper.durable() < ticket.ticket().number {
            return Err((self.unmade(), ticket));
        }
        self.history.acknowledge(ticket.ticket().number);
        Ok(self.history.settled(ticket))
    }

    /// What is shown, if it includes the group of the ticket, which is of this desk. It takes no memory.
    pub fn shown_since(&self, ticket: &Claim) -> Option<Shown>
        requires { ticket.now.origin ≡ N.origin }
        ensures origin { IfSome result (λ shown. shown.origin ≡ N.origin) }
        ensures groups { IfSome result (λ shown. shown.groups ≡ groups_to self.now.machine self.now.machine.shown) }
        ensures there { IfSome result (λ shown. IsAt N.origin.version shown.groups ticket.now.ticket) }
        ensures none { IfNone result (self.now.machine.shown < ticket.now.ticket.number) }
    {
        let _ = self.keeper.opened();
        if self.keeper.shown() < ticket.ticket().number {
            return None;
        }
        if !self.history.holds(ticket) {
            unreachable!();
        }
        Some(self.publisher.tell())
    }
}
