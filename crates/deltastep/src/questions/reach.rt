//! The nodes within a length of a source.

ghost use Rattle.std.specs.Prelude.{◌≡◌, ◌+◌, ◌≤◌, ◌↔◌, ℕ, Contains, IfOk, length};
ghost use Rattle.roadnet.specs.Net.{Net, IsNetwork};
ghost use Rattle.roadnet.specs.Reversal.{reversed};
ghost use Rattle.roadnet.specs.Walks.{RowOf};
ghost use Rattle.snapshot.specs.Groups.{IsSnapshotOf};
ghost use Rattle.std.specs.List.Sorted.{IsStrictlyIncreasing};
ghost use Rattle.deltastep.specs.Reach.{AreAllWithin, IsReach, IsReachTo};

use crate::questions::asked::{Question, answer_in};
use crate::rows::distances::{Distances, RowError};
use crate::rows::known::{NodeDistance, all_known, known_among, told};
use crate::searches::workspace::Workspace;
use frontier::Frontier;
use relax::{Known, Team, Tentative};
use snapshot::Snapshot;
use std::alloc::Global;

/// These nodes as a set: ascending and each once.
fn as_set(nodes: Vec<u32>) -> Vec<u32>
    ensures ascending { IsStrictlyIncreasing result.items }
    ensures same { (u : ℕ) → Contains result.items u ↔ Contains nodes.items u }
{
    let mut nodes = nodes;
    nodes.sort_unstable();
    nodes.dedup();
    nodes
}

/// The nodes from 1 to `nodes` that have values up to the limit, each at least once. It examines the noted nodes, or all of them if none were noted.
fn nodes_within(
    alloc: Global,
    values: &Tentative,
    nodes: u32,
    limit: u64,
) -> Result<Vec<u32>, RowError>
    requires nodes { nodes + 1 ≡ length values.now }
    ensures { IfOk result (λ nodes. AreAllWithin values.now limit nodes.items) }
{
    match values.noted() {
        Some(noted) => known_among(alloc, values, noted, Some(limit)),
        None => all_known(alloc, values, nodes, limit),
    }
}

/// The question for the nodes from 1 to `nodes` within a limit.
#[derive(Drop)]
struct Within {
    nodes: u32,
    limit: u64,
}

impl Question for Within {
    ghost suits = { λ asked places. asked.nodes + 1 ≡ places };

    ghost suffices = { λ asked _ end. asked.limit ≤ end };

    ghost answers = { λ asked net source told. IsReach net source asked.limit told };

    fn is_enough<F: Frontier>(&self, _frontier: &F, end: u64) -> bool {
        self.limit <= end
    }

    fn answer(
        &self,
        alloc: Global,
        values: &Tentative,
        _end: Option<u64>,
    ) -> Result<Vec<NodeDistance>, RowError> {
        let nodes = as_set(nodes_within(alloc, values, self.nodes, self.limit)?);
        told(alloc, values, &nodes)
    }
}

/// The nodes that walks from `source` reach within `limit`, each with the least length, ascending by node. The source itself is one of them, with 0. Its
/// only error is lack of memory.
///
/// The search settles bucket after bucket up to the one that contains the limit. It takes time and memory for the nodes that it meets by then, whatever the
/// workspace holds: it uses its values and its queue, and leaves its memory of nodes as it is.
///
/// In the network of `examples/six.gr`, from 1 within 10 it gives 1, 2, 3 and 5, with the lengths 0, 10, 10 and 10, and from 6 only the node 6.
pub fn reach_in<T: Team>(
    alloc: Global,
    snapshot: &Snapshot,
    source: u32,
    limit: u64,
    team: &T,
    workspace: &mut Workspace,
) -> Result<Vec<NodeDistance>, RowError>
    requires source { (1 ≤ source) × (source ≤ snapshot.now.nodes) }
    ensures reach { IfOk result (λ told. (net : Net) → IsSnapshotOf net snapshot.now → IsReach net source limit told.items) }
{
    let asked = Within {
        nodes: snapshot.nodes(),
        limit,
    };
    answer_in(alloc, snapshot, source, &asked, team, workspace)
}

/// The nodes from which walks reach `target` within `limit`, each with the least length, ascending by node: the nodes that `target` reaches over a snapshot
/// of the reversed network. Its only error is lack of memory.
///
/// In the network of `examples/six.gr`, 4 is reached within 2 from 2, 3, 4 and 5, with the lengths 2, 2, 0 and 2.
pub fn reached_in<T: Team>(
    alloc: Global,
    back: &Snapshot,
    target: u32,
    limit: u64,
    team: &T,
    workspace: &mut Workspace,
) -> Result<Vec<NodeDistance>, RowError>
    requires target { (1 ≤ target) × (target ≤ back.now.nodes) }
    ensures reached { IfOk result (λ told. (net : Net) → IsNetwork net → IsSnapshotOf (reversed net) back.now → IsReachTo net target limit told.items) }
{
    reach_in(alloc, back, target, limit, team, workspace)
}

/// The nodes of `reach_in`, from the row of the source, in a network of so many nodes. Its only error is lack of memory, for 20 bytes a node that it
/// returns.
///
/// From the row of node 1 in the network of `examples/six.gr`, whose lengths are 0, 10, 10, 12, 10 and 15, within 12 it gives all but node 6.
pub fn reach_of_row(
    alloc: Global,
    row: &Distances,
    nodes: u32,
    limit: u64,
) -> Result<Vec<NodeDistance>, RowError>
    requires nodes { length row.now ≡ nodes }
    ensures reach { IfOk result (λ told. (net : Net) (source : ℕ) → RowOf net source row.now → IsReach net source limit told.items) }
{
    let nodes = as_set(all_known(alloc, row, nodes, limit)?);
    told(alloc, row, &nodes)
}
