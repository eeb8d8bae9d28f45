// A keeper begun, armed and ended.
ghost use Rattle.std.specs.Prelude.{◌≡◌, ◌≤◌, true, unwrap_or, IfOk, IfErr};
ghost use Rattle.std.specs.Option.{ForSome};
ghost use Rattle.disk.specs.Arming.{Arms};
ghost use Rattle.rows.specs.Kept.{IsWidth};
ghost use Rattle.snapshot.specs.Groups.{default_width};
ghost use Rattle.store.specs.State.{CameTidy, is_calm};
ghost use Rattle.machine.specs.Machine.{start};
ghost use Rattle.keeper.specs.Keeping.{Holds, sizes_of};

use crate::keeper::keepers::Keeper;
use crate::ledger::ledgers::Ledger;
use disk::{Disk, Stoppable};
use relax::{CHUNK, Crew};
use roadnet::{Group, Network, OutOfMemory};
use rows::{Sight, View};
use shared_network::SharedNetwork;
use std::alloc::Global;
use std::sync::Arc;
use std::thread::Threads;
use store::Store;

/// A view of a copy of the network.
pub fn view_of<R: Threads>(
    rt: &R,
    alloc: Global,
    version: u64,
    network: &Network,
    delta: Option<u32>,
) -> Result<Arc<View>, OutOfMemory>
    requires { ForSome delta IsWidth }
    ensures version { IfOk result (λ view. view.value.version ≡ version) }
    ensures network { IfOk result (λ view. view.value.network ≡ network.now) }
    ensures width { IfOk result (λ view. view.value.delta ≡ unwrap_or delta (default_width network.now)) }
{
    let view = View::build(
        alloc,
        version,
        SharedNetwork::of(alloc, network)?,
        delta,
        &Crew::new(rt, CHUNK),
    )?;
    match Arc::new(alloc, view) {
        Ok(view) => Ok(view),
        Err(_) => Err(OutOfMemory),
    }
}

impl<D: Disk> Keeper<D> {
    /// A keeper of a store that is not broken, in the beginning state of its network and version: nothing is pending, and the view of that version is built
    /// and shown. `delta`, 1 to 2147483647, is the width of the buckets of its searches. If none is given, it is the network's default.
    ///
    /// The landmarks' rows are made one after the other. The only error is lack of memory; then the store is handed back.
    pub fn new<R: Threads>(
        rt: &R,
        alloc: Global,
        store: Store<D>,
        delta: Option<u32>,
    ) -> Result<Keeper<D>, (OutOfMemory, Store<D>)>
        requires calm { is_calm store ≡ true }
        requires width { ForSome delta IsWidth }
        ensures begins { IfOk result (λ keeper. keeper.machine ≡ start (sizes_of store) store.network store.version store.unchecked) }
        ensures disk { IfOk result (λ keeper. keeper.disk ≡ store.disk) }
        ensures width { IfOk result (λ keeper. keeper.width ≡ unwrap_or delta (default_width store.network)) }
        ensures given { IfOk result (λ keeper. keeper.given ≡ store.given) }
        ensures handed_back { IfErr result (λ refused. refused.1 ≡ store) }
    {
        match view_of(rt, alloc, store.version(), store.network(), delta) {
            Ok(view) => Keeper::showing(alloc, store, view),
            Err(error) => Err((error, store)),
        }
    }

    /// The same, with a given view of the store's network and version as the shown one. The width of the keeper's searches is the view's.
    ///
    /// The only error is lack of memory; then the store is handed back.
    pub fn showing(
        alloc: Global,
        store: Store<D>,
        view: Arc<View>,
    ) -> Result<Keeper<D>, (OutOfMemory, Store<D>)>
        requires calm { is_calm store ≡ true }
        requires version { view.value.version ≡ store.version }
        requires network { view.value.network ≡ store.network }
        ensures begins { IfOk result (λ keeper. keeper.machine ≡ start (sizes_of store) store.network store.version store.unchecked) }
        ensures disk { IfOk result (λ keeper. keeper.disk ≡ store.disk) }
        ensures width { IfOk result (λ keeper. keeper.width ≡ view.value.delta) }
        ensures given { IfOk result (λ keeper. keeper.given ≡ store.given) }
        ensures handed_back { IfErr result (λ refused. refused.1 ≡ store) }
    {
        let ledger = Ledger::new(alloc, store)?;
        Ok(Keeper {
            alloc,
            ledger,
            shown: Sight::new(alloc, view),
            task: None,
            shared: None,
        })
    }

    /// The groups accepted in this life, in order, and the disk. No call of the disk is made. It takes no memory.
    pub fn close(self) -> (Vec<Group>, D)
        ensures history { result.0.items ≡ self.machine.accepted }
        ensures disk { result.1 ≡ self.disk }
        ensures honest { CameTidy D.honest D.content self.given → D.honest self.disk }
        ensures holds { CameTidy D.honest D.content self.given → Holds (D.content self.disk) (D.left self.disk) self.machine }
    {
        self.ledger.close()
    }
}

impl<D: Stoppable> Keeper<D> {
    /// Arms the disk: its k-th write or sync from now on is cut. That call and each later one fail until the disk is stopped. Nothing else is changed.
    pub fn arm(&mut self, k: u64)
        requires { 1 ≤ k }
        ensures machine { self.new.machine ≡ self.old.machine }
        ensures given { self.new.given ≡ self.old.given }
        ensures width { self.new.width ≡ self.old.width }
        ensures arms { Arms D.Disk (record { synced = D.synced; is_unsynced = D.is_unsynced; armed = D.armed }) k self.old.disk self.new.disk }
    {
        self.ledger.arm(k);
    }
}
