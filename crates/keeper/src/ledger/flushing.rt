// Pending groups made durable.
ghost use Rattle.std.specs.Prelude.{◌≡◌, ◌≢◌, ◌↔◌, ◌≤◌, ◌-◌, true, length, take, IfErr, MatchResult};
ghost use Rattle.disk.specs.Contents.{Rose};
ghost use Rattle.pagereader.specs.Outcomes.{failures_told};
ghost use Rattle.disk.specs.Moments.{AddsNothing};
ghost use Rattle.roadnet.specs.declared.refusals.Refusal.TheVariants.{Device as device};
ghost use Rattle.roadnet.specs.Groups.{count_of};
ghost use Rattle.machine.specs.Machine.{fitting, most_of_page};
ghost use Rattle.machine.specs.Calls.{Flushes, refusal_of_flush};
ghost use Rattle.keeper.specs.Keeping.{IsLeftByFlush, LeavesAtAnyMoment};
ghost use Rattle.keeper.specs.Parts.{IsRefusedFor};

use crate::ledger::ledgers::{Ledger, has_failed};
use disk::Disk;
use pages::MOST_COMMANDS;
use roadnet::{Group, Refusal};
use std::snapshot::Snapshot;

/// How many of these groups, from the first on, fit a page of the journal, and how many commands they have.
fn front(groups: &[Group]) -> (usize, u64)
    ensures count { result.0 ≡ fitting most_of_page groups.now }
    ensures commands { result.1 ≡ count_of (take result.0 groups.now) }
    ensures within { result.0 ≤ length groups.now }
{
    let mut count = 0;
    let mut room = MOST_COMMANDS;
    for group in groups {
        let size = group.commands().len();
        if size > room {
            return (count, (MOST_COMMANDS - room) as u64);
        }
        room -= size;
        count += 1;
    }
    (count, (MOST_COMMANDS - room) as u64)
}

/// How many commands are pending after a write of so many of them.
fn still_pending(written: &Result<u64, Refusal>, pending: u64, commands: u64) -> u64
    requires { commands ≤ pending }
    ensures { MatchResult written.now (λ _. result ≡ pending - commands) (λ _. result ≡ pending) }
{
    match written {
        Ok(_) => pending - commands,
        Err(_) => pending,
    }
}

impl<D: Disk> Ledger<D> {
    /// Why a flush would be refused, apart from memory and the disk.
    fn may_flush(&self) -> Result<(), Refusal>
        ensures { IsRefusedFor (refusal_of_flush self.now.machine) result }
    {
        if self.broken {
            return Err(Refusal::Broken);
        }
        if self.opened + self.history.len() as u64 <= self.store.version() {
            return Err(Refusal::NothingPending);
        }
        if self.store.unchecked() >= self.store.journal_pages() {
            return Err(Refusal::JournalFull);
        }
        Ok(())
    }

    /// Makes the first pending groups durable as one page of the journal: as many groups as have at most 253 commands together, all of them or none,
    /// whenever a stop comes. Returns the durable version.
    ///
    /// It is refused, in this order, if the store is broken (45), if nothing is pending (53), if the journal has no free page (44), or for lack of memory
    /// (11), all before any call of the disk; then if the disk fails (43), after which the store is broken. After any other refusal nothing has changed.
    ///
    /// On a new store with one accepted group it returns 1, and a second call is `NothingPending`. With 254 groups of one command it returns 253, and then
    /// 254. With one group of two commands and one of 252 it returns 1, and then 2.
    pub fn flush(&mut self) -> Result<u64, Refusal>
        ensures step { Flushes self.old.machine result self.new.machine }
        ensures same { IfErr result (λ refusal. refusal ≢ device → self.new ≡ self.old) }
        // The count of failures rises by one if 43 is reported, and otherwise not at all: no failure goes unreported.
        ensures counted { D.failures self.new.disk ≡ failures_told result (D.failures self.old.disk) }
        ensures failed { IfErr result (λ refusal. refusal ≡ device → Rose (D.failures self.old.disk) (D.failures self.new.disk)) }
        ensures given { self.new.given ≡ self.old.given }
        ensures adds_nothing { self.old.machine.broken ≡ true → AddsNothing D.moment D.left_since self.old.disk self.new.disk }
        // A stop during the call leaves what a failed flush may leave.
        ensures any_moment { LeavesAtAnyMoment D.Disk (IsLeftByFlush self.old.machine) self.old.machine self.old.given self.old.disk self.new.disk }
        ensures honest { D.honest self.new.disk ↔ D.honest self.old.disk }
    {
        self.may_flush()?;
        let first = (self.store.version() - self.opened) as usize;
        let (count, commands) = front(&self.history[first..]);
        self.written = Snapshot::of(&count);
        let written = self
            .store
            .commit_groups(&self.history[first..first + count]);
        self.broken = has_failed(&written);
        self.pending = still_pending(&written, self.pending, commands);
        written
    }
}
