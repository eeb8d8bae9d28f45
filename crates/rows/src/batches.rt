//! Replies to many pairs, whatever their order: each source, or each target if there are fewer targets, is searched once.

ghost use Rattle.std.specs.Prelude.{◌≡◌, ◌≤◌, ◌<◌, [], length, IfOk, IsOk};
ghost use Rattle.roadnet.specs.Net.{Net};
ghost use Rattle.snapshot.specs.Groups.{IsSnapshotOf};
ghost use Rattle.rows.specs.Batches.{AreRightBy, ArePlaces};
ghost use Rattle.kept_rows.specs.Cached.{KeepsOthers, HasRowsOf, capacity_of};
ghost use Rattle.rows.specs.Kept.{IsWidth};

use crate::answers::reply_by;
use crate::ends::{PairEnds, Turned};
use crate::places::{has_fewer_targets, next_sources, places_by_source};
use crate::queries::Reply;
use crate::side_by_side::fetch_rows;
use crate::turning::WIDEST;
use kept_rows::{DEFAULT_ROWS, RowCache};
use roadnet::OutOfMemory;
use shared_network::SharedNetwork;
use snapshot::Snapshot;
use std::alloc::Global;
use std::thread::Threads;

/// The replies to pairs, made one after the other.
fn in_order<R: Threads, E: PairEnds>(
    rt: &R,
    alloc: Global,
    version: u64,
    network: &SharedNetwork,
    snapshot: &Snapshot,
    cache: &mut RowCache,
    ends: &E,
    pairs: &[E::Pair],
) -> Result<Vec<Reply>, OutOfMemory>
    requires groups { IsSnapshotOf network.now snapshot.now }
    requires rows { HasRowsOf version network.now cache.old }
    ensures right { IfOk result (λ replies. AreRightBy network.now E.source E.target pairs.now replies.items) }
    ensures empty { pairs.now ≡ [] → IsOk result }
    ensures kept { HasRowsOf version network.now cache.new }
    ensures others { KeepsOthers version cache.old cache.new }
    ensures capacity { capacity_of cache.new ≡ capacity_of cache.old }
{
    let mut replies = Vec::with_capacity(alloc, pairs.len())?;
    for pair in pairs {
        let (source, target) = (ends.source(pair), ends.target(pair));
        let reply = reply_by(rt, alloc, version, network, snapshot, cache, source, target)?;
        if replies.push(reply).is_err() {
            return Err(OutOfMemory);
        }
    }
    Ok(replies)
}

/// If the rows of the sources at the places before this one are not made yet, makes those of the next sources, as far as memory allows. Returns up to which
/// place they are made.
fn fetch_next<R: Threads, E: PairEnds>(
    rt: &R,
    alloc: Global,
    version: u64,
    snapshot: &Snapshot,
    cache: &mut RowCache,
    ends: &E,
    pairs: &[E::Pair],
    places: &[u32],
    index: usize,
    made: usize,
) -> usize
    requires { index ≤ length places.now }
    ensures kept { (net : Net) → IsSnapshotOf net snapshot.now → HasRowsOf version net cache.old → HasRowsOf version net cache.new }
    ensures others { KeepsOthers version cache.old cache.new }
    ensures capacity { capacity_of cache.new ≡ capacity_of cache.old }
{
    if index < made {
        return made;
    }
    let rest = &places[index..];
    let found = next_sources(alloc, snapshot, cache.capacity(), ends, pairs, rest);
    let Ok((sources, served)) = found else {
        return places.len();
    };
    match fetch_rows(rt, alloc, version, snapshot, cache, &sources) {
        Ok(()) => index.saturating_add(served),
        Err(OutOfMemory) => places.len(),
    }
}

/// The replies to pairs, in their order, made in the order of places: the rows of the sources that come next there are made side by side.
fn by_places<R: Threads, E: PairEnds>(
    rt: &R,
    alloc: Global,
    version: u64,
    network: &SharedNetwork,
    snapshot: &Snapshot,
    cache: &mut RowCache,
    ends: &E,
    pairs: &[E::Pair],
    places: &[u32],
) -> Result<Vec<Reply>, OutOfMemory>
    requires groups { IsSnapshotOf network.now snapshot.now }
    requires rows { HasRowsOf version network.now cache.old }
    requires places { ArePlaces (length pairs.now) places.now }
    ensures right { IfOk result (λ replies. AreRightBy network.now E.source E.target pairs.now replies.items) }
    ensures kept { HasRowsOf version network.now cache.new }
    ensures others { KeepsOthers version cache.old cache.new }
    ensures capacity { capacity_of cache.new ≡ capacity_of cache.old }
{
    let mut replies = Vec::from_elem(alloc, Reply::NoWalk, pairs.len())?;
    let mut made = 0;
    for (index, place) in places.iter().enumerate() {
        made = fetch_next(
            rt, alloc, version, snapshot, cache, ends, pairs, places, index, made,
        );
        let pair = &pairs[*place as usize];
        let (source, target) = (ends.source(pair), ends.target(pair));
        replies[*place as usize] = reply_by(
            rt, alloc, version, network, snapshot, cache, source, target,
        )?;
    }
    Ok(replies)
}

/// The replies to pairs, in their order, from the rows of their targets over the reversed arcs. The only error is lack of memory.
fn by_targets<R: Threads, E: PairEnds>(
    rt: &R,
    alloc: Global,
    network: &SharedNetwork,
    delta: u32,
    ends: &E,
    pairs: &[E::Pair],
    count: u32,
) -> Result<Vec<Reply>, OutOfMemory>
    requires delta { IsWidth delta }
    requires count { count ≡ length pairs.now }
    ensures { IfOk result (λ replies. AreRightBy network.now E.source E.target pairs.now replies.items) }
{
    let back = network.reversed()?;
    let snapshot = Snapshot::build(alloc, &back, delta)?;
    let mut cache = RowCache::new(alloc, DEFAULT_ROWS);
    let turned = Turned { ends };
    let places = places_by_source(alloc, &turned, pairs, count)?;
    by_places(
        rt, alloc, 0, &back, &snapshot, &mut cache, &turned, pairs, &places,
    )
}

/// The replies to pairs, in their order. Each source whose row is not kept is searched once; or, if there are fewer targets, each target is, over the
/// reversed arcs. The rows of several are made side by side.
fn by_searches<R: Threads, E: PairEnds>(
    rt: &R,
    alloc: Global,
    version: u64,
    network: &SharedNetwork,
    snapshot: &Snapshot,
    cache: &mut RowCache,
    ends: &E,
    pairs: &[E::Pair],
    count: u32,
) -> Result<Vec<Reply>, OutOfMemory>
    requires groups { IsSnapshotOf network.now snapshot.now }
    requires rows { HasRowsOf version network.now cache.old }
    requires count { count ≡ length pairs.now }
    ensures right { IfOk result (λ replies. AreRightBy network.now E.source E.target pairs.now replies.items) }
    ensures kept { HasRowsOf version network.now cache.new }
    ensures others { KeepsOthers version cache.old cache.new }
    ensures capacity { capacity_of cache.new ≡ capacity_of cache.old }
{
    if has_fewer_targets(alloc, version, snapshot, cache, ends, pairs) {
        let delta = snapshot.delta().min(WIDEST);
        if let Ok(replies) = by_targets(rt, alloc, network, delta, ends, pairs, count) {
            return Ok(replies);
        }
    }
    let places = places_by_source(alloc, ends, pairs, count)?;
    by_places(
        rt, alloc, version, network, snapshot, cache, ends, pairs, &places,
    )
}

/// The replies to `Dist` for pairs, in their order. Each source whose row is not kept is searched once, whatever the order; or, if there are fewer targets,
/// each target is, over the reversed arcs. Up to four searches are made side by side, and the rows of sources are kept.
///
/// The only error is lack of memory, for 20 bytes a pair, a flag a node and a row. If there is memory for these but no more, searches are made one after
/// the other, from the sources.
pub(crate) fn replies_to<R: Threads, E: PairEnds>(
    rt: &R,
    alloc: Global,
    version: u64,
    network: &SharedNetwork,
    snapshot: &Snapshot,
    cache: &mut RowCache,
    ends: &E,
    pairs: &[E::Pair],
) -> Result<Vec<Reply>, OutOfMemory>
    requires groups { IsSnapshotOf network.now snapshot.now }
    requires rows { HasRowsOf version network.now cache.old }
    ensures right { IfOk result (λ replies. AreRightBy network.now E.source E.target pairs.now replies.items) }
    ensures empty { pairs.now ≡ [] → IsOk result }
    ensures kept { HasRowsOf version network.now cache.new }
    ensures others { KeepsOthers version cache.old cache.new }
    ensures capacity { capacity_of cache.new ≡ capacity_of cache.old }
{
    match u32::try_from(pairs.len()) {
        Ok(count) if count > 1 => by_searches(
            rt, alloc, version, network, snapshot, cache, ends, pairs, count,
        ),
        _ => in_order(rt, alloc, version, network, snapshot, cache, ends, pairs),
    }
}
