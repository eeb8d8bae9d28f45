// How far a life has come, according to its ledger. None of these calls takes memory.
ghost use Rattle.std.specs.Prelude.{◌≡◌, ◌≤◌};
ghost use Rattle.machine.specs.Machine.{latest, most_of_life, of_life};

use crate::ledger::ledgers::Ledger;
use disk::Disk;

impl<D: Disk> Ledger<D> {
    /// How many commands the groups have that were accepted in this life: at most 16,777,216.
    pub fn of_life(&self) -> u64
        ensures count { result ≡ of_life self.now.machine }
        ensures most { result ≤ most_of_life }
    {
        self.of_life
    }

    /// The version after all accepted groups.
    pub fn latest(&self) -> u64
        ensures { result ≡ latest self.now.machine }
    {
        self.opened + self.history.len() as u64
    }
}
