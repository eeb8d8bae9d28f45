// Groups accepted.
ghost use Rattle.std.specs.Prelude.{◌≡◌};
ghost use Rattle.roadnet.specs.Outlines.{EachAdmitsGroup};
ghost use Rattle.machine.specs.Calls.{Submits, refusal_of_submit};
ghost use Rattle.keeper.specs.Accepting.{Accepts};
ghost use Rattle.keeper.specs.Parts.{IsRefusedFor, ticket_for};

use crate::ledger::ledgers::Ledger;
use disk::Disk;
use machine::{MOST_OF_LIFE, MOST_PENDING, Ticket};
use pages::MOST_VERSIONS;
use roadnet::{Group, OutOfMemory, Outline, Refusal};

/// Appends an admitted group to the accepted ones, and carries it out. After an `Err` nothing has changed.
fn accept(history: &mut Vec<Group>, accepted: &mut Outline, group: Group) -> Result<(), OutOfMemory>
    requires { EachAdmitsGroup accepted.old group }
    ensures { Accepts group result history.old.items history.new.items accepted.old accepted.new }
{
    history.reserve(1)?;
    accepted.carry_out(&group)?;
    history.push_reserved(group);
    Ok(())
}

impl<D: Disk> Ledger<D> {
    /// Why the group would be refused, apart from memory.
    pub(crate) fn may_submit(&self, group: &Group) -> Result<(), Refusal>
        ensures { IsRefusedFor (refusal_of_submit self.now.machine group.now) result }
    {
        if self.broken {
            return Err(Refusal::Broken);
        }
        let count = group.commands().len() as u64;
        if self.of_life + count > MOST_OF_LIFE as u64 {
            return Err(Refusal::HistoryFull);
        }
        if self.opened + self.history.len() as u64 >= MOST_VERSIONS {
            return Err(Refusal::VersionsExhausted);
        }
        if self.pending + count > MOST_PENDING {
            return Err(Refusal::QueueFull);
        }
        self.accepted.admit_group(group)
    }

    /// Accepts the group with the next number. It is then pending, and a stop may take it back until a flush has made it durable.
    ///
    /// It is refused, in this order, if the store is broken (45), if the life would exceed 16,777,216 commands (62), if the version would exceed 2^48 (28),
    /// if more than 4,096 commands would be pending (50), or with the refusal of its first command that is not admitted after the accepted groups and the
    /// commands before it (20 to 27, 29); then for lack of memory (11).
    ///
    /// The outline of the accepted network is changed in place. Beside the group itself, and a copy of a group of two or more commands, this takes memory
    /// for a copy of the landmarks if the group names one, and for new arcs.
    ///
    /// On a new store of `examples/six.gr`, the group of `Close { arc: 7 }` is accepted with number 1. The same group once more is `AlreadyClosed`, though
    /// nothing is durable yet.
    pub fn submit_group(&mut self, group: Group) -> Result<Ticket, Refusal>
        ensures step { Submits self.old.machine group result self.new.machine }
        ensures disk { self.new.disk ≡ self.old.disk }
        ensures given { self.new.given ≡ self.old.given }
    {
        match self.submit_copy(&group) {
            Ok(number) => Ok(Ticket { number, group }),
            Err(refusal) => Err(refusal),
        }
    }

    /// Accepts a copy of the group, as `submit_group` does, and returns its number. The copy is made once the group is admitted.
    pub fn submit_copy(&mut self, group: &Group) -> Result<u64, Refusal>
        ensures step { Submits self.old.machine group.now (ticket_for group.now result) self.new.machine }
        ensures disk { self.new.disk ≡ self.old.disk }
        ensures given { self.new.given ≡ self.old.given }
    {
        self.may_submit(group)?;
        let number = self.opened + self.history.len() as u64 + 1;
        let count = group.commands().len() as u64;
        let copy = group.copy()?;
        accept(&mut self.history, &mut self.accepted, copy)?;
        self.of_life += count;
        self.pending += count;
        Ok(number)
    }
}
