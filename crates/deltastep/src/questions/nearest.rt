//! The nearest of some nodes to a source.

ghost use Rattle.std.specs.Prelude.{◌≡◌, ◌≤◌, ℕ, ◌+◌, Some, IfOk, IfSome, count_by, length};
ghost use Rattle.std.specs.List.Sorted.{IsStrictlyIncreasing};
ghost use Rattle.roadnet.specs.Net.{Net};
ghost use Rattle.roadnet.specs.Walks.{RowOf};
ghost use Rattle.snapshot.specs.Groups.{IsSnapshotOf};
ghost use Rattle.deltastep.specs.Reach.{AreFinal, AreNearest, AreNodesOfRow, AreEnough, AreNodesAmong, has_within};

use crate::questions::asked::{Question, answer_in};
use crate::rows::distances::{Distances, RowError};
use crate::rows::known::{NodeDistance, is_known, known_among, told};
use crate::searches::workspace::Workspace;
use frontier::Frontier;
use relax::{Known, Team, Tentative};
use snapshot::Snapshot;
use std::alloc::Global;

/// How many of these nodes have values up to the end.
fn count_known<F: Frontier>(frontier: &F, among: &[u32], end: u64) -> usize
    requires nodes { AreNodesOfRow (F.tentative frontier.now) among.now }
    ensures { result ≡ count_by (has_within (F.tentative frontier.now) (Some end)) among.now }
{
    let mut count: usize = 0;
    for &node in among {
        if is_known(frontier.value(node), Some(end)) {
            count += 1;
        }
    }
    count
}

/// The nearest of these nodes, as many as the count, given values that are final up to the end, and that are enough. The only error is lack of memory.
fn nearest_by<V: Known>(
    alloc: Global,
    values: &V,
    among: &[u32],
    count: u32,
    end: Option<u64>,
) -> Result<Vec<NodeDistance>, RowError>
    requires nodes { AreNodesOfRow (V.values values.now) among.now }
    requires ascending { IsStrictlyIncreasing among.now }
    requires enough { IfSome end (AreEnough (V.values values.now) among.now count) }
    ensures { IfOk result (λ told. (net : Net) (source : ℕ) → AreFinal net source end (V.values values.now) → AreNearest net source among.now count told.items) }
{
    let known = known_among(alloc, values, among, end)?;
    let mut nearest = told(alloc, values, &known)?;
    nearest.sort_unstable();
    nearest.truncate(count as usize);
    Ok(nearest)
}

/// The question for the nearest of some nodes.
#[derive(Drop)]
struct Nearest<'a> {
    among: &'a [u32],
    count: u32,
}

impl<'a> Question for Nearest<'a> {
    ghost suits = { λ asked places. AreNodesAmong places asked.among.now };

    ghost suffices = { λ asked values end. AreEnough values asked.among.now asked.count end };

    ghost answers = { λ asked net source told. AreNearest net source asked.among.now asked.count told };

    fn is_enough<F: Frontier>(&self, frontier: &F, end: u64) -> bool {
        let wanted = self.among.len().min(self.count as usize);
        wanted <= count_known(frontier, self.among, end)
    }

    fn answer(
        &self,
        alloc: Global,
        values: &Tentative,
        end: Option<u64>,
    ) -> Result<Vec<NodeDistance>, RowError> {
        nearest_by(alloc, values, self.among, self.count, end)
    }
}

/// Of these ascending nodes, the `count` nearest to `source` by the least lengths of walks from it, or fewer if walks lead to fewer: ascending by length,
/// and the lower number first if two are equally near. Its only error is lack of memory.
///
/// The search settles bucket after bucket until so many of the nodes are final, or all of them. It takes time and memory for the nodes that it meets by
/// then, whatever the workspace holds: it uses its values and its queue, and leaves its memory of nodes as it is.
///
/// In the network of `examples/six.gr`, from 1 the two nearest of 2, 3, 4 and 6 are 2 and 3, both at 10. From 3 the nearest of 1, 2 and 6 are 2 at 0 and 6
/// at 5, since no walk leads to 1.
pub fn nearest_in<T: Team>(
    alloc: Global,
    snapshot: &Snapshot,
    source: u32,
    among: &[u32],
    count: u32,
    team: &T,
    workspace: &mut Workspace,
) -> Result<Vec<NodeDistance>, RowError>
    requires source { (1 ≤ source) × (source ≤ snapshot.now.nodes) }
    requires among { AreNodesAmong (snapshot.now.nodes + 1) among.now }
    ensures nearest { IfOk result (λ told. (net : Net) → IsSnapshotOf net snapshot.now → AreNearest net source among.now count told.items) }
{
    let asked = Nearest { among, count };
    answer_in(alloc, snapshot, source, &asked, team, workspace)
}

/// The nodes of `nearest_in`, from the row of the source. Its only error is lack of memory, for 20 bytes for each of the nodes.
///
/// From the row of node 3 in the network of `examples/six.gr`, the nearest of 2 and 6 is 2, at 0.
pub fn nearest_of_row(
    alloc: Global,
    row: &Distances,
    among: &[u32],
    count: u32,
) -> Result<Vec<NodeDistance>, RowError>
    requires among { AreNodesAmong (length row.now + 1) among.now }
    ensures nearest { IfOk result (λ told. (net : Net) (source : ℕ) → RowOf net source row.now → AreNearest net source among.now count told.items) }
{
    nearest_by(alloc, row, among, count, None)
}
