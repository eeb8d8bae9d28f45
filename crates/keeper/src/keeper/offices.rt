// What the holder of a desk's history asks of its keeper: to accept groups as they are written there, and the version from which numbers go on.
ghost use Rattle.std.specs.Prelude.{◌≡◌, ◌≢◌, ◌<◌, ◌^◌, ◌++◌, ◌∷◌, [], None, Ok, Err, length, IfOk, IfErr, OnOk, OnErr};
ghost use Rattle.roadnet.specs.declared.refusals.Refusal.TheVariants.{Closed as closed};
ghost use Rattle.machine.specs.Machine.{IsState};
ghost use Rattle.machine.specs.Calls.{Submits, refusal_of_submit};

use crate::keeper::keepers::Keeper;
use disk::Disk;
use history::History;
use machine::Ticket;
use roadnet::{Group, Refusal};

impl<D: Disk> Keeper<D> {
    /// The version at which the keeper's store was opened: its first group leads from there to the next.
    pub fn opened(&self) -> u64
        ensures version { result ≡ self.now.machine.base_version }
        ensures state { IsState self.now.machine }
    {
        self.ledger.opened()
    }

    /// Accepts the group and writes it into the desk's history, as `Ledger::submit_into` does: both get it, or neither.
    pub fn submit_into(&mut self, log: &mut History, group: Group) -> Result<Ticket, Refusal>
        ensures accepted { IfOk result (λ ticket. Submits self.old.machine group (Ok ticket) self.new.machine) }
        ensures refused { IfErr result (λ refusal. refusal ≢ closed → Submits self.old.machine group (Err refusal) self.new.machine) }
        ensures order { IfErr result (λ refusal. refusal ≡ closed → refusal_of_submit self.old.machine group ≡ None) }
        ensures room { length log.old.groups < 2 ^ 62 → IfErr result (λ refusal. Submits self.old.machine group (Err refusal) self.new.machine) }
        ensures same { OnErr result (self.new ≡ self.old) }
        ensures written { OnOk result (log.new ≡ record log.old { groups = log.old.groups ++ group ∷ [] }) }
        ensures unwritten { OnErr result (log.new ≡ log.old) }
        ensures disk { self.new.disk ≡ self.old.disk }
        ensures given { self.new.given ≡ self.old.given }
        ensures width { self.new.width ≡ self.old.width }
    {
        self.ledger.submit_into(log, group)
    }
}
