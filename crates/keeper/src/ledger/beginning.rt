// A ledger begun, armed and ended.
ghost use Rattle.std.specs.Prelude.{◌≡◌, ◌≤◌, true, IfOk, IfErr};
ghost use Rattle.disk.specs.Arming.{Arms};
ghost use Rattle.store.specs.State.{CameTidy, is_calm};
ghost use Rattle.machine.specs.Machine.{start};
ghost use Rattle.keeper.specs.Keeping.{Holds, sizes_of};

use crate::ledger::ledgers::Ledger;
use disk::{Disk, Stoppable};
use roadnet::{Group, OutOfMemory, Outline};
use std::alloc::Global;
use std::snapshot::Snapshot;
use store::Store;

impl<D: Disk> Ledger<D> {
    /// A ledger of a store that is not broken, in the beginning state of its network and version: nothing is pending.
    ///
    /// It makes one pass over the network's arcs, and copies none. The only error is lack of memory; then the store is handed back.
    pub fn new(alloc: Global, store: Store<D>) -> Result<Ledger<D>, (OutOfMemory, Store<D>)>
        requires calm { is_calm store ≡ true }
        ensures begins { IfOk result (λ ledger. ledger.machine ≡ start (sizes_of store) store.network store.version store.unchecked) }
        ensures disk { IfOk result (λ ledger. ledger.disk ≡ store.disk) }
        ensures given { IfOk result (λ ledger. ledger.given ≡ store.given) }
        ensures handed_back { IfErr result (λ refused. refused.1 ≡ store) }
    {
        let opened = store.version();
        let Ok(accepted) = Outline::of(alloc, store.network()) else {
            return Err((OutOfMemory, store));
        };
        let base = Snapshot::of(store.network());
        Ok(Ledger {
            store,
            base,
            opened,
            history: Vec::new(alloc),
            accepted,
            of_life: 0,
            pending: 0,
            broken: false,
            written: Snapshot::of(&0),
        })
    }

    /// The groups accepted in this life, in order, and the disk. No call of the disk is made. It takes no memory.
    pub fn close(self) -> (Vec<Group>, D)
        ensures history { result.0.items ≡ self.machine.accepted }
        ensures disk { result.1 ≡ self.disk }
        ensures honest { CameTidy D.honest D.content self.given → D.honest self.disk }
        ensures holds { CameTidy D.honest D.content self.given → Holds (D.content self.disk) (D.left self.disk) self.machine }
    {
        (self.history, self.store.close())
    }
}

impl<D: Stoppable> Ledger<D> {
    /// Arms the disk: its k-th write or sync from now on is cut. That call and each later one fail until the disk is stopped. Nothing else is changed.
    pub fn arm(&mut self, k: u64)
        requires { 1 ≤ k }
        ensures machine { self.new.machine ≡ self.old.machine }
        ensures given { self.new.given ≡ self.old.given }
        ensures arms { Arms D.Disk (record { synced = D.synced; is_unsynced = D.is_unsynced; armed = D.armed }) k self.old.disk self.new.disk }
    {
        self.store.arm(k);
    }
}
