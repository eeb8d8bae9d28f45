ghost use Rattle.std.specs.Prelude.{◌≡◌, ◌+◌, ◌≤◌, ◌↔◌, [], None, Some, replicate, IfOk, IfSome, IsTrue, OnOk};
ghost use Rattle.roadnet.specs.Net.{Net};
ghost use Rattle.roadnet.specs.Walks.{RowOf};
ghost use Rattle.snapshot.specs.Groups.{IsGrouped, IsNarrowed, IsSnapshotOf};
ghost use Rattle.deltastep.specs.Search.{IsBetweenBuckets, IsNarrowedOf, Suits, most_lists, ring_buckets, IsRingSize};
ghost use Rattle.std.specs.FinMap as map;

use crate::rows::distances::{Distances, RowError};
use crate::searches::search::Search;
use crate::searches::workspace::Workspace;
use buckets::{BucketQueue, OrderedBuckets};
use frontier::{Frontier, LazyRing, Queued, Remembered};
use relax::{Team, Tentative};
use snapshot::Snapshot;
use std::alloc::Global;

/// The most lists of a ring of buckets.
pub(crate) const MOST_LISTS: u32 = 65536;

/// The row of `source`: the least length of a walk from it to each node, or that there is none. It uses delta-stepping with the given team and queue.
///
/// The nodes are in buckets by the length of the shortest way found so far. The least bucket is taken out again and again while the light arcs of its nodes
/// bring nodes back into it; then the heavy arcs of all nodes that were taken from it are relaxed. Its only error is lack of memory: it takes 8 bytes
/// and a bit a node beside the queue, and 24 for each arc of a phase.
pub fn row_from<Q: BucketQueue + Drop, T: Team>(
    alloc: Global,
    snapshot: &Snapshot,
    source: u32,
    team: &T,
    buckets: Q,
) -> Result<Distances, RowError>
    requires node { (1 ≤ source) × (source ≤ snapshot.now.nodes) }
    requires suits { Suits snapshot.now (Q.entries buckets) (Q.accepts buckets) (Q.width buckets) (Q.span buckets) }
    ensures row { IfOk result (λ row. (net : Net) → IsSnapshotOf net snapshot.now → RowOf net source row) }
{
    let mut remembered = Remembered::new(alloc, snapshot.nodes() as usize + 1)?;
    let tentative = Tentative::new(alloc, snapshot.nodes())?;
    let frontier = Queued { tentative, buckets };
    let over = settled(alloc, snapshot, source, team, frontier, &mut remembered)?;
    let Queued {
        tentative,
        buckets: _,
    } = over;
    Ok(Distances::from_words(tentative.into_words())?)
}

/// The frontier of a finished search from `source`, with the given team, a frontier without values and queued nodes, and an empty memory of nodes.
#[inline(always)]
fn settled<F: Frontier + Drop, T: Team>(
    alloc: Global,
    snapshot: &Snapshot,
    source: u32,
    team: &T,
    frontier: F,
    remembered: &mut Remembered,
) -> Result<F, RowError>
    requires node { (1 ≤ source) × (source ≤ snapshot.now.nodes) }
    requires blank { F.tentative frontier ≡ replicate (snapshot.now.nodes + 1) None }
    requires suits { Suits snapshot.now (F.entries frontier) (F.accepts frontier) (F.width frontier) (F.span frontier) }
    requires none { remembered.old ≡ record { limit = snapshot.now.nodes + 1; nodes = [] } }
    ensures state { IfOk result (λ over. IsBetweenBuckets snapshot.now source (F.tentative over) map.empty) }
    ensures grouped { OnOk result (IsGrouped snapshot.now) }
{
    let mut search = Search::begin(snapshot, source, frontier)?;
    search.settle_all(alloc, snapshot, team, remembered)?;
    let Search { frontier } = search;
    Ok(frontier)
}

/// Whether a search of this snapshot can begin with this queue: no node is queued, a node of value 0 fits, its buckets are as wide as the snapshot's delta,
/// and its window holds the values that live at once. It takes no memory.
///
/// A new ring of 5 buckets of width 5 suits the network of `examples/six.gr` grouped by 5, whose longest arc is 20 long. A ring of 4 does not.
pub fn suits<Q: BucketQueue>(queue: &Q, snapshot: &Snapshot) -> bool
    ensures { IsTrue result ↔ Suits snapshot.now (Q.entries queue.now) (Q.accepts queue.now) (Q.width queue.now) (Q.span queue.now) }
{
    queue.is_empty()
        && queue.fits(0)
        && queue.delta() == snapshot.delta()
        && live_buckets(snapshot) <= queue.window()
}

/// How many buckets in a row hold all values that live at once: the greatest length divided by the width of a bucket, rounded up, plus one.
fn live_buckets(snapshot: &Snapshot) -> u64
    ensures { result ≡ ring_buckets snapshot.now.greatest snapshot.now.delta }
{
    let delta = u64::from(snapshot.delta());
    (u64::from(snapshot.greatest()) + (delta - 1)) / delta + 1
}

/// How many lists a ring needs for a search of this snapshot, or nothing if it needs more than a ring may have. It takes no memory.
///
/// If the greatest length of an arc is 20, it is 5 for buckets of width 5, and 21 for buckets of width 1.
pub fn ring_size(snapshot: &Snapshot) -> Option<u32>
    ensures { IsRingSize snapshot.now.greatest snapshot.now.delta result }
{
    let size = live_buckets(snapshot);
    if size <= u64::from(MOST_LISTS) {
        Some(size as u32)
    } else {
        None
    }
}

/// The row of `source`, by delta-stepping with the given team and a queue of its own: a ring of as many buckets as are needed, if a ring may have so many,
/// otherwise ordered buckets.
///
/// In the network of `examples/six.gr`, the row of node 1 has the lengths 0, 10, 10, 12, 10 and 15. In the row of node 6 no walk leads to any other node.
pub fn row<T: Team>(
    alloc: Global,
    snapshot: &Snapshot,
    source: u32,
    team: &T,
) -> Result<Distances, RowError>
    requires node { (1 ≤ source) × (source ≤ snapshot.now.nodes) }
    ensures row { IfOk result (λ row. (net : Net) → IsSnapshotOf net snapshot.now → RowOf net source row) }
{
    row_in(alloc, snapshot, source, team, &mut Workspace::new())
}

/// The same row, whatever the workspace holds. The search takes what an earlier one left there and leaves its own. So rows that are made one after another
/// ask for that memory once. After an `Err` it leaves nothing. That only saves time, and no clause speaks of it.
pub fn row_in<T: Team>(
    alloc: Global,
    snapshot: &Snapshot,
    source: u32,
    team: &T,
    workspace: &mut Workspace,
) -> Result<Distances, RowError>
    requires node { (1 ≤ source) × (source ≤ snapshot.now.nodes) }
    ensures row { IfOk result (λ row. (net : Net) → IsSnapshotOf net snapshot.now → RowOf net source row) }
{
    let Some(size) = ring_size(snapshot) else {
        let buckets = OrderedBuckets::new(alloc, snapshot.delta());
        return row_from(alloc, snapshot, source, team, buckets);
    };
    let narrow = snapshot.narrowed()?;
    let inner = narrower(&narrow, snapshot);
    row_over(alloc, inner, source, team, size, workspace)
}

/// The snapshot with which a search goes: the narrowed one, if there is one.
pub(crate) fn narrower<'s>(narrow: &'s Option<Snapshot>, snapshot: &'s Snapshot) -> &'s Snapshot
    requires narrowed { IfSome narrow.now (IsNarrowed snapshot.now) }
    ensures narrowed { (net : Net) → IsSnapshotOf net snapshot.now → IsNarrowedOf net result.now }
    ensures nodes { result.now.nodes ≡ snapshot.now.nodes }
{
    let _grouped = snapshot.nodes();
    match narrow {
        Some(narrow) => narrow,
        None => snapshot,
    }
}

/// The row of `source` in each network from whose snapshot this one is narrowed, over a ring of so many lists.
fn row_over<T: Team>(
    alloc: Global,
    snapshot: &Snapshot,
    source: u32,
    team: &T,
    size: u32,
    workspace: &mut Workspace,
) -> Result<Distances, RowError>
    requires node { (1 ≤ source) × (source ≤ snapshot.now.nodes) }
    requires some { 1 ≤ size }
    requires few { size ≤ most_lists }
    ensures row { IfOk result (λ row. (net : Net) → IsNarrowedOf net snapshot.now → RowOf net source row) }
{
    let ring = workspace.take_ring(alloc, snapshot.delta(), size)?;
    let mut remembered = workspace.take_remembered(alloc, snapshot.nodes() as usize + 1)?;
    let tentative = Tentative::new(alloc, snapshot.nodes())?;
    let frontier = LazyRing::new(alloc, tentative, ring);
    let over = settled(alloc, snapshot, source, team, frontier, &mut remembered)?;
    let (tentative, ring) = over.into_parts();
    workspace.keep_ring(ring, snapshot.nodes());
    workspace.keep_remembered(remembered);
    Ok(Distances::from_words(tentative.into_words())?)
}
