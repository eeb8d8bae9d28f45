//! The order in which the pairs of a batch are answered. It only affects speed: each order gives the same replies.

ghost use Rattle.std.specs.Prelude.{◌≡◌, ◌≤◌, length, IfOk, IfSome};
ghost use Rattle.rows.specs.Batches.{ArePlaces, AreNodes};

use crate::ends::{PairEnds, Turned};
use kept_rows::RowCache;
use roadnet::OutOfMemory;
use snapshot::Snapshot;
use std::alloc::Global;

/// The source of the pair at a place, or 0.
fn source_at<E: PairEnds>(ends: &E, pairs: &[E::Pair], place: u32) -> u64 {
    match pairs.get(place as usize) {
        Some(pair) => ends.source(pair),
        None => 0,
    }
}

/// The places of so many pairs, ascending by their sources.
pub(crate) fn places_by_source<E: PairEnds>(
    alloc: Global,
    ends: &E,
    pairs: &[E::Pair],
    count: u32,
) -> Result<Vec<u32>, OutOfMemory>
    requires { count ≡ length pairs.now }
    ensures { IfOk result (λ places. ArePlaces (length pairs.now) places.items) }
{
    let mut places = Vec::with_capacity(alloc, pairs.len())?;
    for place in 0..count {
        if places.push(place).is_err() {
            return Err(OutOfMemory);
        }
    }
    places.sort_unstable_by_key(|place: &u32| -> u64 { source_at(ends, pairs, *place) });
    Ok(places)
}

/// The node of this number, if there is one.
fn node_of(snapshot: &Snapshot, number: u64) -> Option<u32>
    ensures { IfSome result (λ node. (1 ≤ node) × (node ≤ snapshot.now.nodes)) }
{
    match u32::try_from(number) {
        Ok(node) if snapshot.has_node(node) => Some(node),
        _ => None,
    }
}

/// How many searches the pairs need: one for each of their sources that is a node and has no kept row. The only error is lack of memory, for a flag a node.
fn searches_of<E: PairEnds>(
    alloc: Global,
    version: u64,
    snapshot: &Snapshot,
    cache: &RowCache,
    ends: &E,
    pairs: &[E::Pair],
) -> Result<usize, OutOfMemory> {
    let mut seen = Vec::from_elem(alloc, false, snapshot.nodes() as usize + 1)?;
    let mut count: usize = 0;
    for pair in pairs {
        let Some(source) = node_of(snapshot, ends.source(pair)) else {
            continue;
        };
        if !seen[source as usize] && !cache.has(version, source) {
            count = count.saturating_add(1);
        }
        seen[source as usize] = true;
    }
    Ok(count)
}

/// Whether the pairs need fewer searches from their targets, for which no row is kept, than from their sources. It is false if there is no memory to count
/// them.
pub(crate) fn has_fewer_targets<E: PairEnds>(
    alloc: Global,
    version: u64,
    snapshot: &Snapshot,
    cache: &RowCache,
    ends: &E,
    pairs: &[E::Pair],
) -> bool {
    let none = RowCache::new(alloc, 1);
    let turned = Turned { ends };
    let sources = searches_of(alloc, version, snapshot, cache, ends, pairs);
    let targets = searches_of(alloc, version, snapshot, &none, &turned, pairs);
    match (sources, targets) {
        (Ok(sources), Ok(targets)) => targets < sources,
        _ => false,
    }
}

/// The next sources of the pairs at these places, in ascending order: as many as the cache keeps rows, or fewer, each a node. Also how many of the places
/// they serve.
pub(crate) fn next_sources<E: PairEnds>(
    alloc: Global,
    snapshot: &Snapshot,
    most: usize,
    ends: &E,
    pairs: &[E::Pair],
    places: &[u32],
) -> Result<(Vec<u32>, usize), OutOfMemory>
    ensures { IfOk result (λ found. AreNodes snapshot.now.nodes found.0.items) }
{
    let mut sources = Vec::with_capacity(alloc, most)?;
    let mut last = 0;
    for (index, place) in places.iter().enumerate() {
        let Some(source) = node_of(snapshot, source_at(ends, pairs, *place)) else {
            continue;
        };
        if source != last && sources.len() == most {
            return Ok((sources, index));
        }
        if source != last && sources.push(source).is_err() {
            return Err(OutOfMemory);
        }
        last = source;
    }
    Ok((sources, places.len()))
}
