//! Whether a change of some arcs leaves a row as it is, judged only by the legs of the nodes that changed.

ghost use Rattle.std.specs.Prelude.{◌≡◌, ℕ, ◌+◌, ◌≤◌, Some, IfSome, unwrap_or};
ghost use Rattle.std.specs.Bool.{OnTrue};
ghost use Rattle.roadnet.specs.Net.{Net};
ghost use Rattle.roadnet.specs.Walks.{RowOf, distance_at};
ghost use Rattle.snapshot.specs.Groups.{IsSnapshotOf, legs_of};
ghost use Rattle.deltastep.specs.Repair.{AreChanged, AreFeasible, AreThere, HasLeg, IsUntouched};

use crate::repairs::remaining::{has_leg, is_sum};
use crate::rows::distances::Distances;
use snapshot::{Leg, Part, Snapshot};

/// Whether the node still has the leg, or the leg is not tight.
#[inline(always)]
fn is_there(after: &Snapshot, row: &Distances, node: u32, value: u64, leg: &Leg) -> bool
    ensures { OnTrue result (distance_at row.now leg.now.head ≡ Some (value + leg.now.length) → HasLeg after.now node leg.now) }
{
    if has_leg(after, node, leg) {
        return true;
    }
    if is_sum(row.get(u64::from(leg.head)), value, leg.length) {
        return false;
    }
    true
}

/// Whether the node still has those of these legs that are tight. It had all of them when it had this distance.
#[inline(always)]
fn are_there(after: &Snapshot, row: &Distances, node: u32, value: u64, legs: &[Leg]) -> bool
    ensures { OnTrue result (AreThere after.now row.now node value legs.now) }
{
    for leg in legs {
        if !is_there(after, row, node, value, leg) {
            return false;
        }
    }
    true
}

/// Whether the distance is at most the sum of the value and the length.
fn is_at_most(distance: Option<u64>, value: u64, length: u32) -> bool
    ensures { OnTrue result ((top : ℕ) → unwrap_or distance top ≤ value + length) }
{
    match distance {
        Some(far) => far.saturating_sub(value) <= u64::from(length),
        None => false,
    }
}

/// Whether none of these legs, of a node with this distance, leads to less than the row has.
#[inline(always)]
fn are_feasible(row: &Distances, value: u64, legs: &[Leg]) -> bool
    ensures { OnTrue result (AreFeasible row.now value legs.now) }
{
    for leg in legs {
        if !is_at_most(row.get(u64::from(leg.head)), value, leg.length) {
            return false;
        }
    }
    true
}

/// Whether the node, which has this distance, still has the tight legs of this part, and no leg of it leads to less than the row has.
#[inline(always)]
fn is_part_untouched(
    before: &Snapshot,
    after: &Snapshot,
    row: &Distances,
    node: u32,
    value: u64,
    part: Part,
) -> bool
    ensures there { OnTrue result (AreThere after.now row.now node value (legs_of before.now part node)) }
    ensures feasible { OnTrue result (AreFeasible row.now value (legs_of after.now part node)) }
{
    if !are_there(after, row, node, value, before.legs(node, part)) {
        return false;
    }
    are_feasible(row, value, after.legs(node, part))
}

/// Whether the change of this node's legs leaves the row as it is.
#[inline(always)]
fn is_node_untouched(before: &Snapshot, after: &Snapshot, row: &Distances, node: u32) -> bool
    ensures { OnTrue result (IsUntouched before.now after.now row.now node) }
{
    let Some(value) = row.get(u64::from(node)) else {
        return true;
    };
    if !is_part_untouched(before, after, row, node, value, Part::Light) {
        return false;
    }
    is_part_untouched(before, after, row, node, value, Part::Heavy)
}

/// Whether the change of some nodes' legs leaves the row of `source` as it is: then it is the row of the new network too. It takes no memory, and time for
/// the legs of these nodes.
///
/// A row stays if each tight leg is still there, so that its distances are still lengths of walks, and if no leg leads to less, so that no walk is shorter:
/// the conditions by which shortest distances are known (Ahuja, Magnanti and Orlin, Network Flows, 5.2).
fn is_untouched(
    before: &Snapshot,
    after: &Snapshot,
    source: u32,
    row: &Distances,
    changed: &[u32],
) -> bool
    requires node { (1 ≤ source) × (source ≤ after.now.nodes) }
    requires nodes { before.now.nodes ≡ after.now.nodes }
    requires row { (net : Net) × IsSnapshotOf net before.now × RowOf net source row.now }
    requires changed { AreChanged before.now after.now changed.now }
    ensures { OnTrue result ((net : Net) → IsSnapshotOf net after.now → RowOf net source row.now) }
{
    let _older = before.nodes();
    let _newer = after.nodes();
    for &node in changed {
        if !is_node_untouched(before, after, row, node) {
            return false;
        }
    }
    true
}

/// A share of the row of `source` before a change of some nodes' legs, if it is the row after the change too, and if a share can be made.
pub(crate) fn untouched_row(
    before: &Snapshot,
    after: &Snapshot,
    source: u32,
    row: &Distances,
    changed: &[u32],
) -> Option<Distances>
    requires node { (1 ≤ source) × (source ≤ after.now.nodes) }
    requires nodes { before.now.nodes ≡ after.now.nodes }
    requires row { (net : Net) × IsSnapshotOf net before.now × RowOf net source row.now }
    requires changed { AreChanged before.now after.now changed.now }
    ensures { IfSome result (λ shared. (net : Net) → IsSnapshotOf net after.now → RowOf net source shared) }
{
    if !is_untouched(before, after, source, row, changed) {
        return None;
    }
    match row.share() {
        Ok(shared) => Some(shared),
        Err(_) => None,
    }
}
