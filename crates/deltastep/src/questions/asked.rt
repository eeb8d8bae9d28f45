//! Searches that answer a question about the nodes around a source, and end as soon as they can.

ghost use Rattle.std.specs.Prelude.{◌≡◌, ◌+◌, ◌-◌, ◌/◌, ◌≤◌, ℕ, List, Option, None, length, replicate, IfOk, IfSome, OnOk};
ghost use Rattle.std.specs.Bool.{Decides};
ghost use Rattle.roadnet.specs.Net.{Net};
ghost use Rattle.snapshot.specs.Groups.{IsSnapshotOf};
ghost use Rattle.deltastep.specs.declared.rows.known.NodeDistance.{NodeDistance};
ghost use Rattle.deltastep.specs.Reach.{AreFinal, IsBeyond, Knows};
ghost use Rattle.deltastep.specs.Search.{IsNarrowedOf, Suits, most_lists};
ghost use Rattle.deltastep.specs.Stepping.{HasWidth, IsBetween, StaysBetween};

use crate::rows::distances::RowError;
use crate::rows::known::NodeDistance;
use crate::searches::search::Search;
use crate::searches::stepping::{narrower, ring_size};
use crate::searches::workspace::Workspace;
use buckets::OrderedBuckets;
use frontier::{Frontier, LazyRing, Queued};
use relax::{Team, Tentative};
use snapshot::Snapshot;
use std::alloc::Global;

/// A question about the nodes around a source.
pub(crate) trait Question {
    /// It can be asked of values that have so many places.
    ghost suits: { Self → ℕ → Type 0 };

    /// Values that are final up to a length are enough for an answer.
    ghost suffices: { Self → List (Option ℕ) → ℕ → Type 0 };

    /// The right answers in a network, from a source.
    ghost answers: { Self → Net → ℕ → List NodeDistance → Type 0 };

    /// Whether the values of this frontier, which are final up to this length, are enough.
    fn is_enough<F: Frontier>(&self, frontier: &F, end: u64) -> bool
        requires suits { suits self.now (length (F.tentative frontier.now)) }
        ensures { Decides result (suffices self.now (F.tentative frontier.now) end) };

    /// The answer, given values that are final up to this length, or all of them if there is none. The only error is lack of memory.
    fn answer(
        &self,
        alloc: Global,
        values: &Tentative,
        end: Option<u64>,
    ) -> Result<Vec<NodeDistance>, RowError>
        requires suits { suits self.now (length values.now) }
        requires enough { IfSome end (λ e. suffices self.now values.now e) }
        ensures { IfOk result (λ told. (net : Net) (source : ℕ) → AreFinal net source end values.now → answers self.now net source told.items) };
}

/// The last value of a bucket, or the greatest number of the type if that is above it.
#[inline(always)]
fn last_of(bucket: u64, delta: u64) -> u64
    requires positive { 1 ≤ delta }
    ensures { result / delta ≤ bucket }
{
    bucket.saturating_mul(delta).saturating_add(delta - 1)
}

impl<F: Frontier> Search<F> {
    /// Settles bucket after bucket until there are enough values for an answer, or no node is queued any more. Returns up to which length the values are
    /// then final: to the end of the bucket that was settled last, or all of them if no node is queued.
    fn settle_for<A: Question, T: Team>(
        &mut self,
        alloc: Global,
        snapshot: &Snapshot,
        asked: &A,
        team: &T,
    ) -> Result<Option<u64>, RowError>
        requires suits { A.suits asked.now (snapshot.now.nodes + 1) }
        requires state { (source : ℕ) × IsBetween F.Frontier snapshot.now source self.old }
        requires suited { HasWidth F.Frontier snapshot.now self.old }
        ensures state { OnOk result (StaysBetween F.Frontier snapshot.now self.old self.new) }
        ensures enough { IfOk result (λ end. IfSome end (λ e. A.suffices asked.now (F.tentative self.new.frontier) e)) }
        ensures beyond { IfOk result (λ end. IsBeyond end (F.entries self.new.frontier)) }
    {
        let delta = u64::from(snapshot.delta());
        let mut taken = Vec::new(alloc);
        'buckets: while let Some((bucket, is_settled)) = self.relax_next(
            alloc, snapshot, team, &mut taken,
        )? {
            let end = last_of(bucket, delta);
            if is_settled && asked.is_enough(&self.frontier, end) {
                return Ok(Some(end));
            }
        }
        Ok(None)
    }
}

/// The search for an answer around `source` with the given team and a frontier without values and queued nodes: up to which length the values are final,
/// or all of them if there is no end. Also the frontier as the search leaves it.
#[inline(always)]
fn settled_by<F: Frontier + Drop, A: Question, T: Team>(
    alloc: Global,
    snapshot: &Snapshot,
    source: u32,
    asked: &A,
    team: &T,
    frontier: F,
) -> Result<(Option<u64>, F), RowError>
    requires blank { F.tentative frontier ≡ replicate (snapshot.now.nodes + 1) None }
    requires source { (1 ≤ source) × (source ≤ snapshot.now.nodes) }
    requires asked { A.suits asked.now (snapshot.now.nodes + 1) }
    requires suits { Suits snapshot.now (F.entries frontier) (F.accepts frontier) (F.width frontier) (F.span frontier) }
    ensures places { IfOk result (λ over. length (F.tentative over.1) ≡ snapshot.now.nodes + 1) }
    ensures knows { IfOk result (λ over. (net : Net) → IsNarrowedOf net snapshot.now → Knows net source over.0 (F.tentative over.1)) }
    ensures enough { IfOk result (λ over. IfSome over.0 (λ e. A.suffices asked.now (F.tentative over.1) e)) }
{
    let mut search = Search::begin(snapshot, source, frontier)?;
    let end = search.settle_for(alloc, snapshot, asked, team)?;
    let Search { frontier } = search;
    Ok((end, frontier))
}

/// The search for an answer around `source` with empty values, over a ring of so many lists, which the workspace gets. Also the values.
fn values_over<A: Question, T: Team>(
    alloc: Global,
    snapshot: &Snapshot,
    source: u32,
    asked: &A,
    team: &T,
    values: Tentative,
    size: u32,
    workspace: &mut Workspace,
) -> Result<(Option<u64>, Tentative), RowError>
    requires blank { values ≡ replicate (snapshot.now.nodes + 1) None }
    requires source { (1 ≤ source) × (source ≤ snapshot.now.nodes) }
    requires asked { A.suits asked.now (snapshot.now.nodes + 1) }
    requires some { 1 ≤ size }
    requires few { size ≤ most_lists }
    ensures places { IfOk result (λ over. length over.1 ≡ snapshot.now.nodes + 1) }
    ensures knows { IfOk result (λ over. (net : Net) → IsNarrowedOf net snapshot.now → Knows net source over.0 over.1) }
    ensures enough { IfOk result (λ over. IfSome over.0 (λ e. A.suffices asked.now over.1 e)) }
{
    let ring = workspace.take_ring(alloc, snapshot.delta(), size)?;
    let frontier = LazyRing::new(alloc, values, ring);
    let (end, over) = settled_by(alloc, snapshot, source, asked, team, frontier)?;
    let (values, ring) = over.into_parts();
    workspace.keep_ring(ring, snapshot.nodes());
    Ok((end, values))
}

/// The search for an answer around `source`, whatever the workspace holds: up to which length the values are final, or all of them if there is no end,
/// and the values. The search uses the workspace's values and its queue, and leaves it a queue.
fn values_for<A: Question, T: Team>(
    alloc: Global,
    snapshot: &Snapshot,
    source: u32,
    asked: &A,
    team: &T,
    workspace: &mut Workspace,
) -> Result<(Option<u64>, Tentative), RowError>
    requires source { (1 ≤ source) × (source ≤ snapshot.now.nodes) }
    requires asked { A.suits asked.now (snapshot.now.nodes + 1) }
    ensures places { IfOk result (λ over. length over.1 ≡ snapshot.now.nodes + 1) }
    ensures knows { IfOk result (λ over. (net : Net) → IsSnapshotOf net snapshot.now → Knows net source over.0 over.1) }
    ensures enough { IfOk result (λ over. IfSome over.0 (λ e. A.suffices asked.now over.1 e)) }
{
    let values = workspace.take_values(alloc, snapshot.nodes())?;
    let Some(size) = ring_size(snapshot) else {
        let frontier = Queued {
            tentative: values,
            buckets: OrderedBuckets::new(alloc, snapshot.delta()),
        };
        let (end, over) = settled_by(alloc, snapshot, source, asked, team, frontier)?;
        return Ok((end, over.tentative));
    };
    let narrow = snapshot.narrowed()?;
    let inner = narrower(&narrow, snapshot);
    values_over(alloc, inner, source, asked, team, values, size, workspace)
}

/// The answer around `source`, whatever the workspace holds: the search uses its values and its queue.
pub(crate) fn answer_in<A: Question, T: Team>(
    alloc: Global,
    snapshot: &Snapshot,
    source: u32,
    asked: &A,
    team: &T,
    workspace: &mut Workspace,
) -> Result<Vec<NodeDistance>, RowError>
    requires source { (1 ≤ source) × (source ≤ snapshot.now.nodes) }
    requires asked { A.suits asked.now (snapshot.now.nodes + 1) }
    ensures told { IfOk result (λ told. (net : Net) → IsSnapshotOf net snapshot.now → A.answers asked.now net source told.items) }
{
    let (end, values) = values_for(alloc, snapshot, source, asked, team, workspace)?;
    let told = asked.answer(alloc, &values, end)?;
    workspace.keep_values(values);
    Ok(told)
}
