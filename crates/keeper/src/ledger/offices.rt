// What the holder of a desk's history asks of its ledger: to accept groups as they are written there, and the version from which numbers go on.
ghost use Rattle.std.specs.Prelude.{◌≡◌, ◌≢◌, ◌<◌, ◌^◌, ◌++◌, ◌∷◌, [], None, Ok, Err, length, IfOk, IfErr, OnOk, OnErr};
ghost use Rattle.roadnet.specs.declared.refusals.Refusal.TheVariants.{OutOfMemory as out_of_memory, Closed as closed};
ghost use Rattle.roadnet.specs.Outlines.{IsOutline, EachAdmitsGroup};
ghost use Rattle.machine.specs.Machine.{IsState};
ghost use Rattle.machine.specs.Calls.{Submits, refusal_of_submit};
ghost use Rattle.keeper.specs.Accepting.{Accepts};

use crate::ledger::ledgers::Ledger;
use disk::Disk;
use history::History;
use machine::Ticket;
use roadnet::{Group, Outline, Refusal};

/// Writes an admitted group into the desk's history, appends it to the accepted ones, and carries it out. After an `Err` nothing has changed: it is carried
/// out before it is written, and undone if the history has no room.
fn accept_into(
    log: &mut History,
    history: &mut Vec<Group>,
    accepted: &mut Outline,
    group: Group,
) -> Result<(), Refusal>
    requires admits { EachAdmitsGroup accepted.old group }
    requires outline { IsOutline accepted.old }
    ensures accepts { Accepts group result history.old.items history.new.items accepted.old accepted.new }
    ensures written { OnOk result (log.new ≡ record log.old { groups = log.old.groups ++ group ∷ [] }) }
    ensures unwritten { OnErr result (log.new ≡ log.old) }
    ensures refused { IfErr result (λ refusal. refusal ≢ closed → refusal ≡ out_of_memory) }
    ensures room { length log.old.groups < 2 ^ 62 → IfErr result (λ refusal. refusal ≡ out_of_memory) }
{
    history.reserve(1)?;
    let landmarks = accepted.carry_out(&group)?;
    if !log.write(&group) {
        accepted.take_back(&group, landmarks);
        return Err(Refusal::Closed);
    }
    history.push_reserved(group);
    Ok(())
}

impl<D: Disk> Ledger<D> {
    /// The version at which the ledger's store was opened: its first group leads from there to the next.
    pub fn opened(&self) -> u64
        ensures version { result ≡ self.now.machine.base_version }
        ensures state { IsState self.now.machine }
    {
        self.opened
    }

    /// Accepts the group as `submit_group` does, and writes it into the desk's history: both get it, or neither.
    ///
    /// It is refused as `submit_group` is; and after that with 61, if the history has no room for the group.
    pub fn submit_into(&mut self, log: &mut History, group: Group) -> Result<Ticket, Refusal>
        ensures accepted { IfOk result (λ ticket. Submits self.old.machine group (Ok ticket) self.new.machine) }
        ensures refused { IfErr result (λ refusal. refusal ≢ closed → Submits self.old.machine group (Err refusal) self.new.machine) }
        // 61 comes only if nothing else refuses the group.
        ensures order { IfErr result (λ refusal. refusal ≡ closed → refusal_of_submit self.old.machine group ≡ None) }
        // It does not come if the history has room, as each desk's history does.
        ensures room { length log.old.groups < 2 ^ 62 → IfErr result (λ refusal. Submits self.old.machine group (Err refusal) self.new.machine) }
        ensures same { OnErr result (self.new ≡ self.old) }
        ensures written { OnOk result (log.new ≡ record log.old { groups = log.old.groups ++ group ∷ [] }) }
        ensures unwritten { OnErr result (log.new ≡ log.old) }
        ensures disk { self.new.disk ≡ self.old.disk }
        ensures given { self.new.given ≡ self.old.given }
    {
        self.may_submit(&group)?;
        let number = self.opened + self.history.len() as u64 + 1;
        let count = group.commands().len() as u64;
        let copy = group.copy()?;
        let _room = self.store.network().room();
        accept_into(log, &mut self.history, &mut self.accepted, group)?;
        self.of_life += count;
        self.pending += count;
        Ok(Ticket {
            number,
            group: copy,
        })
    }
}
