// How the view of a task is built.
ghost use Rattle.std.specs.Prelude.{◌≡◌, ◌≤◌, IfOk, unwrap_or};
ghost use Rattle.std.specs.Option.{ForSome};
ghost use Rattle.rows.specs.Backs.{LeadsBack};
ghost use Rattle.rows.specs.Kept.{IsWidth};
ghost use Rattle.rows.specs.Views.{AreLandmarkRows};
ghost use Rattle.snapshot.specs.Blocks.{AreArcsByBlock};
ghost use Rattle.snapshot.specs.Groups.{IsSnapshotOf, default_width};
ghost use Rattle.desk.specs.Repairs.{IsOlder, LeadBackTo};

use crate::gates::{Gate, NoGate};
use crate::threads::last::{UNKNOWN, Unbuilt};
use crate::threads::older::{Grouped, Older, groups_after};
use crate::threads::repairs::Before;
use crate::threads::row_workers::{RowJob, landmark_rows};
use disk::Disk;
use office::Work;
use roadnet::OutOfMemory;
use rows::{Row, View};
use shared_network::SharedNetwork;
use snapshot::{ArcIndex, Snapshot};
use std::alloc::Global;
use std::sync::Arc;
use std::sync::atomic::AtomicU64;
use std::thread::Threads;
use store::Store;

/// How views are built.
#[derive(Clone, Copy)]
pub(crate) struct Plan {
    pub(crate) alloc: Global,
    /// The width of the buckets of searches. If none is given, it is each network's default.
    pub(crate) delta: Option<u32>,
    /// How many row workers there are.
    pub(crate) workers: u32,
    ghost width: { ForSome delta IsWidth },
    ghost some: { 1 ≤ workers },
    ghost few: { workers ≤ 64 },
}

/// All arcs of a network the other way round, with their numbers: those of an older view, if it has them, with the arcs that were laid since; otherwise they
/// are grouped anew. Nothing if no older view is given, or if there is no memory.
fn back_after(
    alloc: Global,
    old: Option<Older<'_>>,
    network: &SharedNetwork,
) -> Option<Arc<Snapshot>>
    requires { ForSome old (IsOlder network.now) }
    ensures { ForSome result (λ back. LeadsBack network.now back.value) }
{
    old?.view.back_after(alloc, network).ok()
}

/// The legs of a network's snapshot the other way round, lent.
fn lent<'a>(
    back: &'a Option<Arc<Snapshot>>,
    network: &SharedNetwork,
    snapshot: &Snapshot,
) -> Option<&'a Snapshot>
    requires back { ForSome back.now (λ back. LeadsBack network.now back.value) }
    requires snapshot { IsSnapshotOf network.now snapshot.now }
    ensures { ForSome result (λ back. LeadBackTo snapshot.now back.now) }
{
    let _grouped = snapshot.nodes();
    match back {
        Some(back) => Some(back),
        None => None,
    }
}

/// The same view, with the index of its network's arcs, if it is given.
fn with_index(view: View, index: Option<Arc<ArcIndex>>) -> View
    requires { ForSome index (λ index. AreArcsByBlock view.network.nodes view.network.arcs index.value) }
    ensures { result ≡ view }
{
    match index {
        Some(index) => view.with_index(index),
        None => view,
    }
}

/// The view of these parts, with the index of its arcs and the reversed arcs, if they are given.
fn assembled(
    version: u64,
    network: SharedNetwork,
    grouped: Grouped,
    rows: Vec<Row>,
    back: Option<Arc<Snapshot>>,
) -> View
    requires groups { IsSnapshotOf network grouped.snapshot }
    requires rows { AreLandmarkRows version network rows.items }
    requires index { ForSome grouped.index (λ index. AreArcsByBlock network.nodes network.arcs index.value) }
    requires back { ForSome back (λ back. LeadsBack network back.value) }
    ensures { result ≡ record { version = version; network = network; delta = grouped.snapshot.delta } }
{
    let Grouped { snapshot, index } = grouped;
    let view = with_index(View::assemble(version, network, snapshot, rows), index);
    match back {
        Some(back) => view.with_back(back),
        None => view,
    }
}

impl Plan {
    /// A view of this network at this version. The row workers make the rows of its landmarks, from those of an older view if one is given. It is given up
    /// if the version is to be skipped meanwhile.
    fn view_of<G: Gate + Sync, R: Threads + Sync>(
        &self,
        rt: &R,
        gate: &G,
        last: &AtomicU64,
        version: u64,
        network: SharedNetwork,
        old: Option<Older<'_>>,
    ) -> Result<Arc<View>, Unbuilt>
        requires { ForSome old (IsOlder network) }
        ensures version { IfOk result (λ view. view.value.version ≡ version) }
        ensures network { IfOk result (λ view. view.value.network ≡ network) }
        ensures width { IfOk result (λ view. view.value.delta ≡ unwrap_or self.now.delta (default_width network)) }
    {
        let back = back_after(self.alloc, old, &network);
        let grouped = groups_after(self.alloc, self.delta, old, &network)?;
        let snapshot = &grouped.snapshot;
        let lent = lent(&back, &network, snapshot);
        let before = Before::of(self.alloc, old, &network, snapshot, lent);
        let rows = landmark_rows(
            rt,
            &RowJob {
                alloc: self.alloc,
                gate,
                last,
                version,
                network: &network,
                snapshot,
                before: before.as_ref(),
                workers: self.workers,
            },
        )?;
        drop(before);
        let view = assembled(version, network, grouped, rows, back);
        match Arc::new(self.alloc, view) {
            Ok(view) => Ok(view),
            Err(_) => Err(Unbuilt::OutOfMemory),
        }
    }

    /// The view of a work, made from the view that was shown when the work was taken. Its network is made here, from that view's network.
    pub(crate) fn build<G: Gate + Sync, R: Threads + Sync>(
        &self,
        rt: &R,
        gate: &G,
        last: &AtomicU64,
        work: &Work,
    ) -> Result<Arc<View>, Unbuilt>
        ensures version { IfOk result (λ view. view.value.version ≡ work.now.version) }
        ensures network { IfOk result (λ view. view.value.network ≡ work.now.network) }
        ensures width { IfOk result (λ view. view.value.delta ≡ unwrap_or self.now.delta (default_width work.now.network)) }
    {
        let network = work.network(self.alloc)?;
        let changed = work.changed(self.alloc, &network)?;
        let shown = Older {
            view: work.shown(),
            changed: &changed,
        };
        self.view_of(rt, gate, last, work.version(), network, Some(shown))
    }

    /// The view of a store's network, made without a call of a gate. The only error is lack of memory.
    pub(crate) fn first<D: Disk, R: Threads + Sync>(
        &self,
        rt: &R,
        store: &Store<D>,
    ) -> Result<Arc<View>, OutOfMemory>
        ensures version { IfOk result (λ view. view.value.version ≡ store.now.version) }
        ensures network { IfOk result (λ view. view.value.network ≡ store.now.network) }
        ensures width { IfOk result (λ view. view.value.delta ≡ unwrap_or self.now.delta (default_width store.now.network)) }
    {
        let last = AtomicU64::new(UNKNOWN);
        let network = SharedNetwork::of(self.alloc, store.network())?;
        match self.view_of(rt, &NoGate, &last, store.version(), network, None) {
            Ok(view) => Ok(view),
            Err(_) => Err(OutOfMemory),
        }
    }
}
