// The pages of a store over a disk that a test can stop.
ghost use Rattle.std.specs.Prelude.{◌≡◌, ◌≤◌};
ghost use Rattle.disk.specs.Arming.{Arms};
ghost use Rattle.store.specs.Durable.{told_by, going_of};
ghost use Rattle.store.specs.State.{told};

use crate::paged::state::Paged;
use disk::Stoppable;

impl<D: Stoppable> Paged<D> {
    // Arms the disk. Nothing else is changed.
    pub fn arm(&mut self, k: u64)
        requires { 1 ≤ k }
        ensures arms { Arms D.Disk (record { synced = D.synced; is_unsynced = D.is_unsynced; armed = D.armed }) k self.old.disk self.new.disk }
        ensures told { told_by self.new ≡ told_by self.old }
        ensures going { going_of self.new ≡ going_of self.old }
        ensures broken { self.new.broken ≡ self.old.broken }
    {
        self.disk.arm(k);
    }
}
