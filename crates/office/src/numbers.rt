// What an office says of its machine. None of these calls takes memory.
ghost use Rattle.std.specs.Prelude.{◌≡◌};
ghost use Rattle.machine.specs.Machine.{pending};
ghost use Rattle.keeper.specs.Keeping.{Holds};
ghost use Rattle.office.specs.Offices.{RunsFrom};

use crate::naming::Naming;
use crate::offices::Office;
use disk::Disk;

impl<N: Naming, D: Disk> Office<N, D> {
    /// The versions up to this one are durable. Whenever the lock is acquired, the office is in a state of the keeper's machine, which runs from the desk's
    /// network and version; and if the desk's store came tidy, the disk holds what is durable.
    pub fn durable(&self) -> u64
        ensures version { result ≡ self.now.machine.durable }
        ensures desk { RunsFrom N.origin self.now.machine }
        ensures honest { N.came_tidy → D.honest self.now.disk }
        ensures holds { N.came_tidy → Holds (D.content self.now.disk) (D.left self.now.disk) self.now.machine }
    {
        let _ = self.keeper.opened();
        self.keeper.durable()
    }

    /// How many commands the groups have that are accepted and not durable: at most 4,096.
    pub fn pending(&self) -> u64
        ensures { result ≡ pending self.now.machine }
    {
        self.keeper.pending()
    }

    /// The version that readers see.
    pub fn shown(&self) -> u64
        ensures { result ≡ self.now.machine.shown }
    {
        self.keeper.shown()
    }

    /// How many pages of the journal are still needed because no checkpoint covers them.
    pub fn unchecked(&self) -> u32
        ensures { result ≡ self.now.machine.unchecked }
    {
        self.keeper.unchecked()
    }

    /// How many pages the journal has.
    pub fn journal_pages(&self) -> u32
        ensures { result ≡ self.now.machine.sizes.journal_pages }
    {
        self.keeper.journal_pages()
    }

    /// Whether a write failed. Then nothing is written before the store is opened again.
    pub fn broken(&self) -> bool
        ensures { result ≡ self.now.machine.broken }
    {
        self.keeper.broken()
    }
}
