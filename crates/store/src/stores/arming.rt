// A store over a disk that a test can stop.
ghost use Rattle.std.specs.Prelude.{◌≡◌, ◌↔◌, ◌≤◌, List, ℕ};
ghost use Rattle.store.specs.State.{told};
ghost use Rattle.disk.specs.Stop.{armed_at};

use crate::stores::store::Store;
use disk::Stoppable;

impl<D: Stoppable> Store<D> {
    /// Arms the disk: its k-th write or sync from now on is cut. That call and each later one fail until the disk is stopped. Nothing else is changed.
    pub fn arm(&mut self, k: u64)
        requires { 1 ≤ k }
        ensures armed { D.armed self.new.disk ≡ armed_at k (D.armed self.old.disk) }
        ensures content { D.content self.new.disk ≡ D.content self.old.disk }
        ensures synced { D.synced self.new.disk ≡ D.synced self.old.disk }
        ensures unsynced { (i : ℕ) → D.is_unsynced self.new.disk i ≡ D.is_unsynced self.old.disk i }
        ensures left { (c : List ℕ) → D.left self.new.disk c ↔ D.left self.old.disk c }
        ensures moment { D.moment self.new.disk ≡ D.moment self.old.disk }
        ensures left_since { (t : ℕ) (c : List ℕ) → D.left_since self.new.disk t c ↔ D.left_since self.old.disk t c }
        ensures failures { D.failures self.new.disk ≡ D.failures self.old.disk }
        ensures honest { D.honest self.new.disk ↔ D.honest self.old.disk }
        ensures told { told self.new ≡ told self.old }
        ensures given { self.new.given ≡ self.old.given }
        ensures going { self.new.going ≡ self.old.going }
        ensures broken { self.new.broken ≡ self.old.broken }
        ensures in_flight { self.new.in_flight ≡ self.old.in_flight }
    {
        self.pages.arm(k);
    }
}
