ghost use Rattle.std.specs.Prelude.{◌≡◌, ℕ, ◌+◌, ◌≤◌, ◌<◌, ◌^◌, ◌++◌, List, [], Option, map, length, OnOk, IfOk, IsSome, All};
ghost use Rattle.relax.specs.Values.{value_at, value_or};
ghost use Rattle.relax.specs.Requests.{requests_of};

use crate::known::Known;
use crate::tentative::Tentative;
use roadnet::OutOfMemory;
use snapshot::{Leg, Part, Snapshot};
use std::alloc::{AllocError, Global};

/// Workers that compute the requests of a phase. Every team gives the same list.
pub trait Team {
    /// For each of the nodes in order, and each of its legs of the part in order: the leg's head, and the node's value plus the leg's length. Each node is
    /// one of the network and has a value below 2^56. The only error is lack of memory, for 16 bytes a leg.
    fn requests(
        &self,
        alloc: Global,
        snapshot: &Snapshot,
        nodes: &[u32],
        tentative: &Tentative,
        part: Part,
    ) -> Result<Vec<(u32, u64)>, OutOfMemory>
        requires nodes { All (λ u. (1 ≤ u) × (u ≤ snapshot.now.nodes)) nodes.now }
        requires size { length tentative.now ≡ snapshot.now.nodes + 1 }
        requires values { All (λ u. IsSome (value_at tentative.now u) × (value_or 0 tentative.now u < 2 ^ 56)) nodes.now }
        ensures requests { IfOk result (λ list. list.items ≡ requests_of snapshot.now nodes.now tentative.now part) };
}

/// A team of one worker.
#[derive(Clone, Copy, Debug)]
pub struct Solo;

impl Team for Solo {
    fn requests(
        &self,
        alloc: Global,
        snapshot: &Snapshot,
        nodes: &[u32],
        tentative: &Tentative,
        part: Part,
    ) -> Result<Vec<(u32, u64)>, OutOfMemory> {
        requests_by(alloc, snapshot, nodes, tentative, part)
    }
}

/// The requests of these nodes by these values, computed by one worker: what a team gives for such values. The only error is lack of memory, for 16 bytes a leg.
#[inline(always)]
pub fn requests_by<V: Known>(
    alloc: Global,
    snapshot: &Snapshot,
    nodes: &[u32],
    values: &V,
    part: Part,
) -> Result<Vec<(u32, u64)>, OutOfMemory>
    requires nodes { All (λ u. (1 ≤ u) × (u ≤ snapshot.now.nodes)) nodes.now }
    requires size { length (V.values values.now) ≡ snapshot.now.nodes + 1 }
    requires values { All (λ u. IsSome (value_at (V.values values.now) u) × (value_or 0 (V.values values.now) u < 2 ^ 56)) nodes.now }
    ensures requests { IfOk result (λ list. list.items ≡ requests_of snapshot.now nodes.now (V.values values.now) part) }
{
    let count = count(snapshot, nodes, part);
    if count == 0 {
        return Ok(Vec::new(alloc));
    }
    let mut requests = Vec::with_capacity(alloc, count)?;
    for node in nodes {
        let value = values.value(*node).unwrap_or(0);
        push_requests(&mut requests, value, snapshot.legs(*node, part))?;
    }
    Ok(requests)
}

/// How many legs of the part the nodes have, if that is below 2^64; it is 0 only if they have none.
#[inline(always)]
fn count(snapshot: &Snapshot, nodes: &[u32], part: Part) -> usize
    ensures none { result ≡ 0 → (tentative : List (Option ℕ)) → requests_of snapshot.now nodes.now tentative part ≡ [] }
{
    let mut count: usize = 0;
    for node in nodes {
        count = count.saturating_add(snapshot.legs(*node, part).len());
    }
    count
}

/// Adds the requests of one node, whose value is given.
#[inline(always)]
fn push_requests(
    requests: &mut Vec<(u32, u64)>,
    value: u64,
    legs: &[Leg],
) -> Result<(), OutOfMemory>
    requires small { value < 2 ^ 56 }
    ensures added { OnOk result (requests.new.items ≡ requests.old.items ++ map (λ leg. (leg.head, value + leg.length)) legs.now) }
{
    for leg in legs {
        let request = (leg.head, value + u64::from(leg.length));
        requests.push(request).map_err(AllocError::from)?;
    }
    Ok(())
}
