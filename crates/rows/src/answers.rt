ghost use Rattle.std.specs.Prelude.{◌≡◌, ℕ, List, Option, None, IfOk, IsOk, IsSome, OnErr};
ghost use Rattle.roadnet.specs.Net.{Net, IsNetwork, IsNode};
ghost use Rattle.roadnet.specs.Walks.{RowOf, distance_at};
ghost use Rattle.snapshot.specs.Groups.{IsSnapshotOf};
ghost use Rattle.kept_rows.specs.Cached.{KeepsOthers, HasRowsOf, HasUsed, capacity_of, row_kept, rows_of};
ghost use Rattle.rows.specs.Replies.{IsDistance, IsRight, query_refusal_of};
ghost use Rattle.rows.specs.declared.queries.Query.TheVariants.{Dist};

use crate::bounds::plain_bound;
use crate::cached::distance;
use crate::queries::{Query, Reply};
use deltastep::{Distances, RowError, plain_row};
use kept_rows::RowCache;
use roadnet::{OutOfMemory, Refusal};
use shared_network::SharedNetwork;
use snapshot::Snapshot;
use std::alloc::Global;
use std::thread::Threads;

/// Why a query is refused, if it is: the lowest refusal that applies.
pub(crate) fn refusal_of(network: &SharedNetwork, query: &Query) -> Option<Refusal>
    ensures refusal { result ≡ query_refusal_of network.now query.now }
    ensures network { IsNetwork network.now }
{
    if !network.has_node(query.source()) || !network.has_node(query.target()) {
        return Some(Refusal::NoSuchNode);
    }
    match *query {
        Query::From {
            landmark,
            target: _,
        } if !network.is_landmark(landmark) => { Some(Refusal::NotALandmark) }
        _ => None,
    }
}

/// The reply to a query of a distance, by what a row has for the target.
pub(crate) fn distance_by(length: Option<u64>) -> Reply
    ensures { (net : Net) (source target : ℕ) (row : List (Option ℕ)) → length ≡ distance_at row target → IsNode net target → RowOf net source row → IsDistance net source target result }
{
    match length {
        Some(length) => Reply::Length(length),
        None => Reply::NoWalk,
    }
}

/// What a row says of the walks from its source to a node. It takes no memory.
pub fn distance_in(row: &Distances, target: u64) -> Reply
    ensures { (net : Net) (source : ℕ) → IsNode net target → RowOf net source row.now → IsDistance net source target result }
{
    distance_by(row.get(target))
}

/// The reply to `Dist` in a network whose open arcs are grouped, by a row of the cache or a new one.
pub(crate) fn reply_by<R: Threads>(
    rt: &R,
    alloc: Global,
    version: u64,
    network: &SharedNetwork,
    snapshot: &Snapshot,
    cache: &mut RowCache,
    source: u64,
    target: u64,
) -> Result<Reply, OutOfMemory>
    requires groups { IsSnapshotOf network.now snapshot.now }
    requires rows { HasRowsOf version network.now cache.old }
    ensures right { IfOk result (IsRight network.now (Dist source target)) }
    ensures refused { IsSome (query_refusal_of network.now (Dist source target)) → IsOk result }
    ensures kept { HasRowsOf version network.now cache.new }
    ensures others { KeepsOthers version cache.old cache.new }
    ensures held { IsSome (row_kept version source cache.old) → IsOk result }
    ensures used { query_refusal_of network.now (Dist source target) ≡ None → HasUsed version source cache.old cache.new }
    ensures unused { IsSome (query_refusal_of network.now (Dist source target)) → rows_of cache.new ≡ rows_of cache.old }
    ensures cut { OnErr result (rows_of cache.new ≡ rows_of cache.old) }
    ensures capacity { capacity_of cache.new ≡ capacity_of cache.old }
{
    let query = Query::Dist { source, target };
    if let Some(refusal) = refusal_of(network, &query) {
        return Ok(Reply::Refused(refusal));
    }
    distance(rt, alloc, cache, version, snapshot, source as u32, target)
}

/// The least length of a walk between two nodes, from a row that is made for it alone.
fn plain_distance(
    alloc: Global,
    network: &SharedNetwork,
    source: u64,
    target: u64,
) -> Result<Reply, OutOfMemory>
    requires source { IsNode network.now source }
    requires target { IsNode network.now target }
    ensures { IfOk result (IsDistance network.now source target) }
{
    let _ = network.landmarks();
    match plain_row(alloc, network, source as u32) {
        Ok(row) => Ok(distance_in(&row, target)),
        Err(RowError::OutOfMemory) => Err(OutOfMemory),
    }
}

/// The reply to a query, from rows of plain relaxation that are made for it alone: slow, for comparison with faster ways.
///
/// Its only error is lack of memory for a row; a refused query takes none.
///
/// In the network of `examples/six.gr` without landmarks, `Dist { source: 1, target: 6 }` is `Length(15)`, `Lower { source: 1, target: 6 }`
/// `AtLeast(0)`, and `From { landmark: 3, target: 4 }` `Refused(NotALandmark)`.
pub fn answer_plain(
    alloc: Global,
    network: &SharedNetwork,
    query: &Query,
) -> Result<Reply, OutOfMemory>
    ensures right { IfOk result (IsRight network.now query.now) }
    ensures refused { IsSome (query_refusal_of network.now query.now) → IsOk result }
{
    if let Some(refusal) = refusal_of(network, query) {
        return Ok(Reply::Refused(refusal));
    }
    match *query {
        Query::Dist { source, target } => plain_distance(alloc, network, source, target),
        Query::From { landmark, target } => plain_distance(alloc, network, landmark, target),
        Query::Lower { source, target } => plain_bound(alloc, network, source, target),
    }
}
