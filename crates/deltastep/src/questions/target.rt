//! The distance to one target, by a search that ends as soon as it is known.

ghost use Rattle.std.specs.Prelude.{◌≡◌, ◌+◌, ◌/◌, ◌≤◌, ◌<◌, ◌↔◌, ℕ, [], None, false, length, replicate, IfOk, IsTrue, OnOk, MatchOption};
ghost use Rattle.relax.specs.Values.{value_at};
ghost use Rattle.roadnet.specs.Net.{Net};
ghost use Rattle.snapshot.specs.Groups.{IsSnapshotOf};
ghost use Rattle.deltastep.specs.Search.{IsNarrowedOf, Suits, most_lists};
ghost use Rattle.deltastep.specs.Stepping.{HasWidth, IsBetween, StaysBetween};
ghost use Rattle.deltastep.specs.Reach.{IsBeyond, IsLeastLength, IsKnownTo};

use crate::rows::distances::RowError;
use crate::searches::search::Search;
use crate::searches::stepping::{narrower, ring_size};
use crate::searches::workspace::Workspace;
use buckets::OrderedBuckets;
use frontier::{Frontier, LazyRing, Queued, Remembered};
use relax::{Team, Tentative};
use snapshot::Snapshot;
use std::alloc::Global;

impl<F: Frontier> Search<F> {
    /// Settles bucket after bucket until the value of `target` is final: until its bucket is settled, since no arc leads from a later bucket back to less,
    /// or until no node is queued any more.
    #[inline(always)]
    fn settle_until<T: Team>(
        &mut self,
        alloc: Global,
        snapshot: &Snapshot,
        target: u32,
        team: &T,
        remembered: &mut Remembered,
    ) -> Result<(), RowError>
        requires target { (1 ≤ target) × (target ≤ snapshot.now.nodes) }
        requires state { (source : ℕ) × IsBetween F.Frontier snapshot.now source self.old }
        requires suited { HasWidth F.Frontier snapshot.now self.old }
        requires none { remembered.old ≡ record { limit = snapshot.now.nodes + 1; nodes = [] } }
        ensures state { OnOk result (StaysBetween F.Frontier snapshot.now self.old self.new) }
        ensures beyond { OnOk result (IsBeyond (value_at (F.tentative self.new.frontier) target) (F.entries self.new.frontier)) }
    {
        let delta = u64::from(snapshot.delta());
        let mut taken = Vec::new(alloc);
        'buckets: while let Some(bucket) = self.settle_next(
            alloc, snapshot, team, &mut taken, remembered,
        )? {
            if self.is_within(target, bucket, delta) {
                return Ok(());
            }
        }
        Ok(())
    }

    /// Whether a node has a value, in the given bucket or an earlier one.
    #[inline(always)]
    fn is_within(&self, node: u32, bucket: u64, delta: u64) -> bool
        requires node { (1 ≤ node) × (node < length (F.tentative self.now.frontier)) }
        requires positive { 1 ≤ delta }
        ensures { MatchOption (value_at (F.tentative self.now.frontier) node) (result ≡ false) (λ value. IsTrue result ↔ (value / delta ≤ bucket)) }
    {
        match self.frontier.value(node) {
            Some(value) => value / delta <= bucket,
            None => false,
        }
    }
}

/// The frontier of a search from `source` that ends as soon as the value of `target` is final, with the given team, a frontier without values and queued
/// nodes, and an empty memory of nodes.
#[inline(always)]
fn known_by<F: Frontier + Drop, T: Team>(
    alloc: Global,
    snapshot: &Snapshot,
    source: u32,
    target: u32,
    team: &T,
    frontier: F,
    remembered: &mut Remembered,
) -> Result<F, RowError>
    requires blank { F.tentative frontier ≡ replicate (snapshot.now.nodes + 1) None }
    requires source { (1 ≤ source) × (source ≤ snapshot.now.nodes) }
    requires target { (1 ≤ target) × (target ≤ snapshot.now.nodes) }
    requires suits { Suits snapshot.now (F.entries frontier) (F.accepts frontier) (F.width frontier) (F.span frontier) }
    requires none { remembered.old ≡ record { limit = snapshot.now.nodes + 1; nodes = [] } }
    ensures places { IfOk result (λ over. length (F.tentative over) ≡ snapshot.now.nodes + 1) }
    ensures known { IfOk result (λ over. (net : Net) → IsNarrowedOf net snapshot.now → IsKnownTo net source target (F.tentative over)) }
{
    let mut search = Search::begin(snapshot, source, frontier)?;
    search.settle_until(alloc, snapshot, target, team, remembered)?;
    let Search { frontier } = search;
    Ok(frontier)
}

/// The values of such a search in each network from whose snapshot this one is narrowed, with values of no node, over a ring of so many lists; the
/// workspace gets what else the search leaves.
fn known_over<T: Team>(
    alloc: Global,
    snapshot: &Snapshot,
    source: u32,
    target: u32,
    team: &T,
    values: Tentative,
    size: u32,
    workspace: &mut Workspace,
) -> Result<Tentative, RowError>
    requires blank { values ≡ replicate (snapshot.now.nodes + 1) None }
    requires source { (1 ≤ source) × (source ≤ snapshot.now.nodes) }
    requires target { (1 ≤ target) × (target ≤ snapshot.now.nodes) }
    requires some { 1 ≤ size }
    requires few { size ≤ most_lists }
    ensures places { IfOk result (λ values. length values ≡ snapshot.now.nodes + 1) }
    ensures known { IfOk result (λ values. (net : Net) → IsNarrowedOf net snapshot.now → IsKnownTo net source target values) }
{
    let ring = workspace.take_ring(alloc, snapshot.delta(), size)?;
    let mut remembered = workspace.take_remembered(alloc, snapshot.nodes() as usize + 1)?;
    let frontier = LazyRing::new(alloc, values, ring);
    let over = known_by(
        alloc,
        snapshot,
        source,
        target,
        team,
        frontier,
        &mut remembered,
    )?;
    let (values, ring) = over.into_parts();
    workspace.keep_ring(ring, snapshot.nodes());
    workspace.keep_remembered(remembered);
    Ok(values)
}

/// The values of a search from `source` that ends as soon as the value of `target` is final: up to the target's they are the distances, and if no walk leads
/// to the target, it has none. Its only error is lack of memory: it takes what a row does.
///
/// The search takes what an earlier one left in the workspace, whatever that is, and leaves its own, but for its values: `keep_values` puts them back, wiped.
/// So if it ends after a few nodes, it takes time and memory only for these. If the ring would be too long, there is no ring, and a flag for each node is
/// made anew. After an `Err` it leaves nothing.
///
/// In the network of `examples/six.gr`, from 1 to 5 it gives 0, 10, 10 and 10 for 1, 2, 3 and 5.
pub fn values_to_in<T: Team>(
    alloc: Global,
    snapshot: &Snapshot,
    source: u32,
    target: u32,
    team: &T,
    workspace: &mut Workspace,
) -> Result<Tentative, RowError>
    requires source { (1 ≤ source) × (source ≤ snapshot.now.nodes) }
    requires target { (1 ≤ target) × (target ≤ snapshot.now.nodes) }
    ensures places { IfOk result (λ values. length values ≡ snapshot.now.nodes + 1) }
    ensures known { IfOk result (λ values. (net : Net) → IsSnapshotOf net snapshot.now → IsKnownTo net source target values) }
{
    let values = workspace.take_values(alloc, snapshot.nodes())?;
    let Some(size) = ring_size(snapshot) else {
        let frontier = Queued {
            tentative: values,
            buckets: OrderedBuckets::new(alloc, snapshot.delta()),
        };
        let mut remembered = Remembered::new(alloc, snapshot.nodes() as usize + 1)?;
        let over = known_by(
            alloc,
            snapshot,
            source,
            target,
            team,
            frontier,
            &mut remembered,
        )?;
        return Ok(over.tentative);
    };
    let narrow = snapshot.narrowed()?;
    let inner = narrower(&narrow, snapshot);
    known_over(alloc, inner, source, target, team, values, size, workspace)
}

/// The least length of a walk from `source` to `target`, or nothing if no walk leads there: what the row of `source` has for `target`, by the search of
/// `values_to_in`, whose values the workspace gets. Its only error is lack of memory.
///
/// In the network of `examples/six.gr`, from 1 to 4 it gives 12, and from 6 to 1 nothing.
pub fn distance_to_in<T: Team>(
    alloc: Global,
    snapshot: &Snapshot,
    source: u32,
    target: u32,
    team: &T,
    workspace: &mut Workspace,
) -> Result<Option<u64>, RowError>
    requires source { (1 ≤ source) × (source ≤ snapshot.now.nodes) }
    requires target { (1 ≤ target) × (target ≤ snapshot.now.nodes) }
    ensures distance { IfOk result (λ distance. (net : Net) → IsSnapshotOf net snapshot.now → IsLeastLength net source target distance) }
{
    let values = values_to_in(alloc, snapshot, source, target, team, workspace)?;
    let distance = values.get(target);
    workspace.keep_values(values);
    Ok(distance)
}
