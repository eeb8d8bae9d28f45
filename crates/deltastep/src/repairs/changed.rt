//! Which nodes have other legs after a change.

ghost use Rattle.std.specs.Prelude.{◌≡◌, ℕ, ◌⊎◌, OnOk, IfOk, Contains};
ghost use Rattle.std.specs.Bool.{OnTrue};
ghost use Rattle.snapshot.specs.Groups.{legs_of};
ghost use Rattle.snapshot.specs.declared.legs.Part.{Part};
ghost use Rattle.deltastep.specs.Repair.{AreChanged};

use crate::rows::distances::RowError;
use snapshot::{Leg, Part, Snapshot};
use std::alloc::Global;

/// Whether the lists have the same legs in the same order.
#[inline(always)]
fn are_same(legs: &[Leg], others: &[Leg]) -> bool
    ensures { OnTrue result (legs.now ≡ others.now) }
{
    if legs.len() != others.len() {
        return false;
    }
    for place in 0..legs.len() {
        if legs[place].head != others[place].head || legs[place].length != others[place].length {
            return false;
        }
    }
    true
}

/// Whether the node has the same legs in both snapshots.
#[inline(always)]
fn has_same_legs(before: &Snapshot, after: &Snapshot, node: u32) -> bool
    ensures { OnTrue result ((part : Part) → legs_of before.now part node ≡ legs_of after.now part node) }
{
    if !are_same(
        before.legs(node, Part::Light),
        after.legs(node, Part::Light),
    ) {
        return false;
    }
    if !are_same(
        before.legs(node, Part::Heavy),
        after.legs(node, Part::Heavy),
    ) {
        return false;
    }
    true
}

/// Adds the node, if it has other legs in one snapshot than in the other.
#[inline(always)]
fn add_changed(
    before: &Snapshot,
    after: &Snapshot,
    node: u32,
    changed: &mut Vec<u32>,
) -> Result<(), RowError>
    ensures added { OnOk result (Contains changed.new.items node ⊎ ((part : Part) → legs_of before.now part node ≡ legs_of after.now part node)) }
    ensures kept { OnOk result ((u : ℕ) → Contains changed.old.items u → Contains changed.new.items u) }
{
    if has_same_legs(before, after, node) {
        return Ok(());
    }
    if changed.push(node).is_err() {
        return Err(RowError::OutOfMemory);
    }
    Ok(())
}

/// The nodes that do not have the same legs in both snapshots, which are of networks with the same nodes. It passes over all legs once. The only error is
/// lack of memory, for 4 bytes a node that it returns, and twice that while the list grows.
pub fn changed_nodes(
    alloc: Global,
    before: &Snapshot,
    after: &Snapshot,
) -> Result<Vec<u32>, RowError>
    requires nodes { before.now.nodes ≡ after.now.nodes }
    ensures { IfOk result (λ nodes. AreChanged before.now after.now nodes.items) }
{
    let nodes = before.nodes().min(after.nodes());
    let mut changed = Vec::new(alloc);
    for place in 0..nodes {
        add_changed(before, after, place + 1, &mut changed)?;
    }
    Ok(changed)
}
