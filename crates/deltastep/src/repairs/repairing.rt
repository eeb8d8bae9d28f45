//! A row repaired after a change of some arcs.

ghost use Rattle.std.specs.Prelude.{◌≡◌, ◌+◌, ◌≤◌, ◌^◌, [], IfOk, IfSome, OnOk};
ghost use Rattle.std.specs.FinMap as map;
ghost use Rattle.roadnet.specs.Net.{Net};
ghost use Rattle.roadnet.specs.Walks.{RowOf};
ghost use Rattle.snapshot.specs.Groups.{IsSnapshotOf};
ghost use Rattle.frontier.specs.Entries.{IsFresh};
ghost use Rattle.deltastep.specs.Search.{IsBetweenFromReached, IsSearch, most_lists};
ghost use Rattle.deltastep.specs.Repair.{AreTails, AreListed, AreChanged, IsKeptOf};

use crate::repairs::near::remember_near;
use crate::repairs::remaining::{Remains, remaining};
use crate::repairs::untouched::untouched_row;
use crate::rows::distances::{Distances, RowError};
use crate::searches::search::Search;
use crate::searches::stepping::{MOST_LISTS, row_in};
use crate::searches::workspace::Workspace;
use frontier::{EntryRing, Frontier, LazyRing, Mended, Remembered};
use relax::Team;
use snapshot::Snapshot;
use std::alloc::Global;

/// The fewest lists of the ring of a repair.
const FEWEST_LISTS: usize = 1024;

/// How many lists the ring of a repair has, where so many nodes lost their value: as many, within limits. So a small repair makes a small ring, and a large
/// one seldom deals what waits in the bag.
fn lists_for(lost: usize) -> u32
    ensures some { 1 ≤ result }
    ensures few { result ≤ most_lists }
{
    lost.clamp(FEWEST_LISTS, MOST_LISTS as usize) as u32
}

/// The frontier from which a repair goes on: what remains of the row, and the nodes with a leg that leads to less than is known.
fn resumed(
    alloc: Global,
    snapshot: &Snapshot,
    source: u32,
    before: &Snapshot,
    old: &Distances,
    changed: &[u32],
    back: &Snapshot,
    remains: Remains,
    ring: EntryRing,
    remembered: &mut Remembered,
) -> Result<LazyRing<Mended>, RowError>
    requires node { (1 ≤ source) × (source ≤ snapshot.now.nodes) }
    requires nodes { before.now.nodes ≡ snapshot.now.nodes }
    requires old { (net : Net) × IsSnapshotOf net before.now × RowOf net source old.now }
    requires changed { AreChanged before.now snapshot.now changed.now }
    requires back_nodes { back.now.nodes ≡ snapshot.now.nodes }
    requires tails { AreTails back.now snapshot.now }
    requires kept { IsKeptOf source old.now remains.tentative }
    requires listed { AreListed old.now remains.tentative remains.lost.items }
    requires search { IsSearch snapshot.now remains.tentative map.empty 0 }
    requires ring { IsFresh ring.delta ring.last ring.lists.items snapshot.now.delta 1 }
    requires none { remembered.old ≡ record { limit = snapshot.now.nodes + 1; nodes = [] } }
    ensures state { IfOk result (λ made. IsBetweenFromReached snapshot.now (⟦<LazyRing<Mended> as Frontier>⟧.tentative made) (⟦<LazyRing<Mended> as Frontier>⟧.entries made)) }
    ensures tentative { IfOk result (λ made. ⟦<LazyRing<Mended> as Frontier>⟧.tentative made ≡ remains.tentative) }
    ensures width { IfOk result (λ made. ⟦<LazyRing<Mended> as Frontier>⟧.width made ≡ snapshot.now.delta) }
    ensures span { IfOk result (λ made. ⟦<LazyRing<Mended> as Frontier>⟧.span made ≡ 2 ^ 64) }
    ensures none { OnOk result (remembered.new ≡ record { limit = snapshot.now.nodes + 1; nodes = [] }) }
{
    let Remains { tentative, lost } = remains;
    remember_near(
        snapshot, before, back, source, old, changed, &lost, &tentative, remembered,
    )?;
    let values = Mended {
        tentative,
        is_beyond: false,
    };
    let made = LazyRing::resumed(alloc, values, ring, remembered.nodes())?;
    remembered.clear();
    Ok(made)
}

/// The row of `source`, by a search that continues from what remains of its row before a change, found by way of the legs back. It is nothing if too little
/// remains, if the row before was not kept in words of 4 bytes, or if a length does not fit into 4 bytes.
fn repaired<T: Team>(
    alloc: Global,
    snapshot: &Snapshot,
    source: u32,
    before: &Snapshot,
    old: &Distances,
    changed: &[u32],
    back: &Snapshot,
    team: &T,
    workspace: &mut Workspace,
) -> Result<Option<Distances>, RowError>
    requires node { (1 ≤ source) × (source ≤ snapshot.now.nodes) }
    requires nodes { before.now.nodes ≡ snapshot.now.nodes }
    requires old { (net : Net) × IsSnapshotOf net before.now × RowOf net source old.now }
    requires changed { AreChanged before.now snapshot.now changed.now }
    requires back_nodes { back.now.nodes ≡ snapshot.now.nodes }
    requires tails { AreTails back.now snapshot.now }
    ensures row { IfOk result (λ made. IfSome made (λ row. (net : Net) → IsSnapshotOf net snapshot.now → RowOf net source row)) }
{
    let Some(remains) = remaining(alloc, before, snapshot, source, old, changed)? else {
        return Ok(None);
    };
    let lists = lists_for(remains.lost.len());
    let ring = workspace.take_ring(alloc, snapshot.delta(), lists)?;
    let mut remembered = workspace.take_remembered(alloc, snapshot.nodes() as usize + 1)?;
    let frontier = resumed(
        alloc,
        snapshot,
        source,
        before,
        old,
        changed,
        back,
        remains,
        ring,
        &mut remembered,
    )?;
    let mut search = Search { frontier };
    if let Err(error) = search.settle_all(alloc, snapshot, team, &mut remembered) {
        if search.frontier.values().is_beyond {
            return Ok(None);
        }
        return Err(error);
    }
    workspace.keep_remembered(remembered);
    let Search { frontier } = search;
    let (values, ring) = frontier.into_parts();
    workspace.keep_ring(ring, snapshot.nodes());
    let Mended {
        tentative,
        is_beyond: _,
    } = values;
    Ok(Some(Distances::from_tentative(alloc, tentative)?))
}

/// The row of `source` in a network, made from its row in the network before a change. It is the row that `row_in` makes, whatever the workspace holds, and
/// the search uses the workspace as that of `row_in` does.
///
/// `before` and `snapshot` are the snapshots of the two networks, which have the same nodes. `changed` has each node that does not have the same legs in
/// both, as `changed_nodes` gives them. For each leg of the new snapshot, `back` has one from its head to its tail. Nodes whose shortest walks may use a leg
/// that is gone lose their distance, and so do the nodes that depend on these. Then the search continues from the nodes with a leg that leads to less than
/// is known. It takes time for what was lost and changed, with the legs around it, a counter for each 262,144 nodes, and an empty list for each
/// 32,768 nodes where the workspace has none. It takes memory for those lists, for the ring, and for the chunks in which a word is written: the others are
/// those of the row before. If a quarter of the nodes or more lose their distance, or a length does not fit into 4 bytes, or the row before was not kept in
/// words of 4 bytes, the row is made anew. Its only error is lack of memory.
pub fn row_after<T: Team>(
    alloc: Global,
    snapshot: &Snapshot,
    source: u32,
    before: &Snapshot,
    old: &Distances,
    changed: &[u32],
    back: &Snapshot,
    team: &T,
    workspace: &mut Workspace,
) -> Result<Distances, RowError>
    requires node { (1 ≤ source) × (source ≤ snapshot.now.nodes) }
    requires nodes { before.now.nodes ≡ snapshot.now.nodes }
    requires old { (net : Net) × IsSnapshotOf net before.now × RowOf net source old.now }
    requires changed { AreChanged before.now snapshot.now changed.now }
    requires back_nodes { back.now.nodes ≡ snapshot.now.nodes }
    requires tails { AreTails back.now snapshot.now }
    ensures row { IfOk result (λ row. (net : Net) → IsSnapshotOf net snapshot.now → RowOf net source row) }
{
    if let Some(row) = untouched_row(before, snapshot, source, old, changed) {
        return Ok(row);
    }
    if let Some(row) = repaired(
        alloc, snapshot, source, before, old, changed, back, team, workspace,
    )? {
        return Ok(row);
    }
    row_in(alloc, snapshot, source, team, workspace)
}
