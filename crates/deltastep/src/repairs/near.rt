//! The nodes from which a repair goes on, found by way of the legs that lead to nodes that lost their values.

ghost use Rattle.std.specs.Prelude.{◌≡◌, ℕ, ◌+◌, ◌≤◌, ◌<◌, ◌^◌, ◌⊎◌, [], Some, OnOk, All, Contains, length, unwrap_or};
ghost use Rattle.std.specs.FinMap as map;
ghost use Rattle.std.specs.Bool.{OnFalse};
ghost use Rattle.buckets.specs.Queue.{Entries};
ghost use Rattle.frontier.specs.Live.{AreJustQueued};
ghost use Rattle.roadnet.specs.Net.{Net};
ghost use Rattle.roadnet.specs.Walks.{RowOf, distance_at};
ghost use Rattle.snapshot.specs.Groups.{IsSnapshotOf};
ghost use Rattle.snapshot.specs.declared.legs.Part.{Part};
ghost use Rattle.relax.specs.Values.{value_at, value_or};
ghost use Rattle.deltastep.specs.Search.{IsRelaxed, IsSearch, top_of, IsBetweenFromReached};
ghost use Rattle.deltastep.specs.Repair.{AreChanged, AreListed, AreTails, AreTailsLooked, HaveValues, IsKeptOf, IsNodeLooked};

use crate::rows::distances::{Distances, RowError};
use frontier::Remembered;
use relax::SharedTentative;
use snapshot::{Leg, Part, Snapshot};

/// Whether the way is shorter than the known one, or none is known.
fn is_less(through: u64, known: Option<u64>) -> bool
    ensures { OnFalse result ((top : ℕ) → unwrap_or known top ≤ through) }
{
    match known {
        Some(known) => through < known,
        None => true,
    }
}

/// Whether some of these legs, of a node with this value, leads to less than is known.
#[inline(always)]
fn leads_to_less(tentative: &SharedTentative, value: u64, legs: &[Leg]) -> bool
    requires heads { All (λ leg. (1 ≤ leg.head) × (leg.head < length tentative.now)) legs.now }
    requires small { value < 2 ^ 56 }
    ensures { OnFalse result ((top : ℕ) → All (λ leg. value_or top tentative.now leg.head ≤ value + leg.length) legs.now) }
{
    for leg in legs {
        if is_less(value + u64::from(leg.length), tentative.get(leg.head)) {
            return true;
        }
    }
    false
}

/// Whether some leg of the node, which has this value, leads to less than is known.
#[inline(always)]
fn owes(snapshot: &Snapshot, tentative: &SharedTentative, node: u32, value: u64) -> bool
    requires places { length tentative.now ≡ snapshot.now.nodes + 1 }
    requires has { value_at tentative.now node ≡ Some value }
    requires small { value < 2 ^ 56 }
    ensures { OnFalse result ((part : Part) → IsRelaxed snapshot.now part tentative.now node) }
{
    if leads_to_less(tentative, value, snapshot.legs(node, Part::Light)) {
        return true;
    }
    if leads_to_less(tentative, value, snapshot.legs(node, Part::Heavy)) {
        return true;
    }
    false
}

/// Remembers the node, if it has a value and some leg of it leads to less than is known.
#[inline(always)]
fn remember_owing(
    snapshot: &Snapshot,
    tentative: &SharedTentative,
    node: u32,
    owing: &mut Remembered,
) -> Result<(), RowError>
    requires node { (1 ≤ node) × (node ≤ snapshot.now.nodes) }
    requires search { IsSearch snapshot.now tentative.now map.empty 0 }
    requires small { top_of snapshot.now ≤ 2 ^ 56 }
    requires limit { owing.old.limit ≡ snapshot.now.nodes + 1 }
    ensures valued { OnOk result (HaveValues tentative.now owing.old.nodes → HaveValues tentative.now owing.new.nodes) }
    ensures keeps { OnOk result ((u : ℕ) → Contains owing.old.nodes u → Contains owing.new.nodes u) }
    ensures looked { OnOk result (IsNodeLooked snapshot.now tentative.now (Contains owing.new.nodes) node) }
    ensures limit { owing.new.limit ≡ owing.old.limit }
{
    let Some(value) = tentative.get(node) else {
        return Ok(());
    };
    if !owes(snapshot, tentative, node, value) {
        return Ok(());
    }
    owing.add(node)?;
    Ok(())
}

/// Of the heads of these legs, remembers those with a leg that leads to less than is known.
#[inline(always)]
fn remember_heads(
    snapshot: &Snapshot,
    tentative: &SharedTentative,
    legs: &[Leg],
    owing: &mut Remembered,
) -> Result<(), RowError>
    requires heads { All (λ leg. (1 ≤ leg.head) × (leg.head ≤ snapshot.now.nodes)) legs.now }
    requires search { IsSearch snapshot.now tentative.now map.empty 0 }
    requires small { top_of snapshot.now ≤ 2 ^ 56 }
    requires limit { owing.old.limit ≡ snapshot.now.nodes + 1 }
    ensures valued { OnOk result (HaveValues tentative.now owing.old.nodes → HaveValues tentative.now owing.new.nodes) }
    ensures keeps { OnOk result ((u : ℕ) → Contains owing.old.nodes u → Contains owing.new.nodes u) }
    ensures looked { OnOk result (All (λ leg. IsNodeLooked snapshot.now tentative.now (Contains owing.new.nodes) leg.head) legs.now) }
    ensures limit { owing.new.limit ≡ owing.old.limit }
{
    for leg in legs {
        remember_owing(snapshot, tentative, leg.head, owing)?;
    }
    Ok(())
}

/// Of the nodes with a leg to this node, remembers those with a leg that leads to less than is known. For each leg, `back` has one from its head to its tail.
#[inline(always)]
fn remember_tails(
    snapshot: &Snapshot,
    back: &Snapshot,
    tentative: &SharedTentative,
    node: u32,
    owing: &mut Remembered,
) -> Result<(), RowError>
    requires nodes { back.now.nodes ≡ snapshot.now.nodes }
    requires search { IsSearch snapshot.now tentative.now map.empty 0 }
    requires small { top_of snapshot.now ≤ 2 ^ 56 }
    requires limit { owing.old.limit ≡ snapshot.now.nodes + 1 }
    ensures valued { OnOk result (HaveValues tentative.now owing.old.nodes → HaveValues tentative.now owing.new.nodes) }
    ensures keeps { OnOk result ((u : ℕ) → Contains owing.old.nodes u → Contains owing.new.nodes u) }
    ensures looked { OnOk result (AreTailsLooked snapshot.now back.now tentative.now (Contains owing.new.nodes) node) }
    ensures limit { owing.new.limit ≡ owing.old.limit }
{
    remember_heads(snapshot, tentative, back.legs(node, Part::Light), owing)?;
    remember_heads(snapshot, tentative, back.legs(node, Part::Heavy), owing)?;
    Ok(())
}

/// Remembers the node, if it is one and some leg of it leads to less than is known.
#[inline(always)]
fn remember_changed(
    snapshot: &Snapshot,
    tentative: &SharedTentative,
    node: u32,
    owing: &mut Remembered,
) -> Result<(), RowError>
    requires search { IsSearch snapshot.now tentative.now map.empty 0 }
    requires small { top_of snapshot.now ≤ 2 ^ 56 }
    requires limit { owing.old.limit ≡ snapshot.now.nodes + 1 }
    ensures valued { OnOk result (HaveValues tentative.now owing.old.nodes → HaveValues tentative.now owing.new.nodes) }
    ensures keeps { OnOk result ((u : ℕ) → Contains owing.old.nodes u → Contains owing.new.nodes u) }
    ensures looked { OnOk result (1 ≤ node → node ≤ snapshot.now.nodes → IsNodeLooked snapshot.now tentative.now (Contains owing.new.nodes) node) }
    ensures limit { owing.new.limit ≡ owing.old.limit }
{
    if !snapshot.has_node(node) {
        return Ok(());
    }
    remember_owing(snapshot, tentative, node, owing)
}

/// Of these nodes, remembers those with a leg that leads to less than is known.
fn remember_all_changed(
    snapshot: &Snapshot,
    tentative: &SharedTentative,
    changed: &[u32],
    owing: &mut Remembered,
) -> Result<(), RowError>
    requires search { IsSearch snapshot.now tentative.now map.empty 0 }
    requires small { top_of snapshot.now ≤ 2 ^ 56 }
    requires limit { owing.old.limit ≡ snapshot.now.nodes + 1 }
    ensures valued { OnOk result (HaveValues tentative.now owing.old.nodes → HaveValues tentative.now owing.new.nodes) }
    ensures looked { OnOk result (All (λ u. 1 ≤ u → u ≤ snapshot.now.nodes → IsNodeLooked snapshot.now tentative.now (Contains owing.new.nodes) u) changed.now) }
    ensures limit { owing.new.limit ≡ owing.old.limit }
{
    for &node in changed {
        remember_changed(snapshot, tentative, node, owing)?;
    }
    Ok(())
}

/// Remembers, where no node is remembered, each node with a leg that leads to less than is known: such a node has other legs than before, or a leg to a node
/// that lost its value. It looks at the legs of those nodes alone.
pub(crate) fn remember_near(
    snapshot: &Snapshot,
    before: &Snapshot,
    back: &Snapshot,
    source: u32,
    row: &Distances,
    changed: &[u32],
    lost: &[u32],
    tentative: &SharedTentative,
    owing: &mut Remembered,
) -> Result<(), RowError>
    requires node { (1 ≤ source) × (source ≤ snapshot.now.nodes) }
    requires nodes { before.now.nodes ≡ snapshot.now.nodes }
    requires back_nodes { back.now.nodes ≡ snapshot.now.nodes }
    requires row { (net : Net) × IsSnapshotOf net before.now × RowOf net source row.now }
    requires changed { AreChanged before.now snapshot.now changed.now }
    requires tails { AreTails back.now snapshot.now }
    requires kept { IsKeptOf source row.now tentative.now }
    requires listed { AreListed row.now tentative.now lost.now }
    requires search { IsSearch snapshot.now tentative.now map.empty 0 }
    requires none { owing.old ≡ record { limit = snapshot.now.nodes + 1; nodes = [] } }
    ensures state { OnOk result ((queue : Entries) → AreJustQueued tentative.now owing.new.nodes queue → IsBetweenFromReached snapshot.now tentative.now queue) }
    ensures valued { OnOk result (HaveValues tentative.now owing.new.nodes) }
    ensures small { OnOk result (top_of snapshot.now ≤ 2 ^ 56) }
    ensures limit { owing.new.limit ≡ snapshot.now.nodes + 1 }
{
    let _older = before.nodes();
    let _newer = snapshot.nodes();
    remember_all_changed(snapshot, tentative, changed, owing)?;
    for &node in lost {
        remember_tails(snapshot, back, tentative, node, owing)?;
    }
    Ok(())
}
