//! Nodes and their distances, from the values of a search or from a row.

ghost use Rattle.std.specs.Prelude.{◌≡◌, ◌+◌, ◌≤◌, ◌<◌, ℕ, List, [], ◌∷◌, ◌++◌, Option, None, Some, if◌then◌else◌, length, map, IfOk, OnOk};
ghost use Rattle.std.specs.List.{filter};
ghost use Rattle.relax.specs.Values.{value_at};
ghost use Rattle.deltastep.specs.Reach.{AreAllWithin, AreNodesOfRow, has_within, is_within, node_told_of};

use crate::rows::distances::{Distances, RowError};
use relax::Known;
use std::alloc::Global;

/// A node, and the least length of a walk to it or from it. The order is by distance, and then by node.
#[derive(Clone, Copy, Debug, PartialEq, Eq, PartialOrd, Ord)]
pub struct NodeDistance {
    /// The least length.
    pub distance: u64,
    /// The node.
    pub node: u32,
}

impl Known for Distances {
    ghost values = { λ row. None ∷ row };

    fn value(&self, node: u32) -> Option<u64> {
        self.get(u64::from(node))
    }
}

/// Whether there is a value, and it is at most the end, if there is one.
#[inline(always)]
pub(crate) fn is_known(value: Option<u64>, end: Option<u64>) -> bool
    ensures { result ≡ is_within end value }
{
    match (value, end) {
        (None, _) => false,
        (Some(_), None) => true,
        (Some(distance), Some(end)) => distance <= end,
    }
}

/// Adds a node, if it has a value that is at most the end.
#[inline(always)]
fn add_known<V: Known>(
    values: &V,
    node: u32,
    end: Option<u64>,
    known: &mut Vec<u32>,
) -> Result<(), RowError>
    requires node { (1 ≤ node) × (node < length (V.values values.now)) }
    ensures { OnOk result (known.new.items ≡ known.old.items ++ (if has_within (V.values values.now) end node then node ∷ [] else [])) }
{
    if !is_known(values.value(node), end) {
        return Ok(());
    }
    if known.push(node).is_err() {
        return Err(RowError::OutOfMemory);
    }
    Ok(())
}

/// Those of these nodes that have values up to the end, in their order. The only error is lack of memory, for 4 bytes a node that it returns.
pub(crate) fn known_among<V: Known>(
    alloc: Global,
    values: &V,
    nodes: &[u32],
    end: Option<u64>,
) -> Result<Vec<u32>, RowError>
    requires nodes { AreNodesOfRow (V.values values.now) nodes.now }
    ensures { IfOk result (λ known. known.items ≡ filter (has_within (V.values values.now) end) nodes.now) }
{
    let mut known = Vec::new(alloc);
    for &node in nodes {
        add_known(values, node, end, &mut known)?;
    }
    Ok(known)
}

/// The nodes from 1 to `nodes` that have values up to the limit, ascending. The only error is lack of memory, for 4 bytes a node that it returns.
pub(crate) fn all_known<V: Known>(
    alloc: Global,
    values: &V,
    nodes: u32,
    limit: u64,
) -> Result<Vec<u32>, RowError>
    requires nodes { nodes + 1 ≡ length (V.values values.now) }
    ensures { IfOk result (λ known. AreAllWithin (V.values values.now) limit known.items) }
{
    let mut known = Vec::new(alloc);
    for place in 0..nodes {
        add_known(values, place + 1, Some(limit), &mut known)?;
    }
    Ok(known)
}

/// These nodes with their values, in their order. The only error is lack of memory, for 16 bytes a node.
pub(crate) fn told<V: Known>(
    alloc: Global,
    values: &V,
    nodes: &[u32],
) -> Result<Vec<NodeDistance>, RowError>
    requires nodes { AreNodesOfRow (V.values values.now) nodes.now }
    ensures { IfOk result (λ told. told.items ≡ map (node_told_of (V.values values.now)) nodes.now) }
{
    let mut told = Vec::with_capacity(alloc, nodes.len())?;
    for &node in nodes {
        let distance = values.value(node).unwrap_or(0);
        if told.push(NodeDistance { distance, node }).is_err() {
            return Err(RowError::OutOfMemory);
        }
    }
    Ok(told)
}
