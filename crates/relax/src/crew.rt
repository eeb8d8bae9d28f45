ghost use Rattle.std.specs.Prelude.{◌≡◌, ℕ, ◌+◌, ◌≤◌, ◌<◌, ◌^◌, length, flat_map, IfOk, IsSome, All};
ghost use Rattle.relax.specs.Values.{value_at, value_or};
ghost use Rattle.relax.specs.Requests.{requests_of};

use crate::permits::Permit;
use crate::team::{Solo, Team};
use crate::tentative::Tentative;
use rayon::prelude::*;
use roadnet::OutOfMemory;
use snapshot::{Part, Snapshot};
use std::alloc::{AllocError, Global};
use std::thread::Threads;

/// How many nodes a chunk of a crew has by default.
pub const CHUNK: u32 = 4096;

/// A team whose workers share the nodes of a phase: the nodes are cut into chunks, the chunks are relaxed side by side, and their lists are joined in
/// order. A phase with no more nodes than a chunk has is done by one worker, and no thread is started for it.
#[derive(Drop)]
pub struct Crew<R> {
    permit: Permit<R>,
    chunk: u32,
    ghost some: { 1 ≤ chunk },
}

impl<R: Threads> Crew<R> {
    /// A crew that cuts the nodes of a phase into chunks of this size.
    pub fn new(rt: &R, chunk: u32) -> Crew<R>
        requires some { 1 ≤ chunk }
        ensures chunk { result.chunk ≡ chunk }
    {
        let permit = Permit::of(rt);
        Crew { permit, chunk }
    }
}

impl<R: Threads> Team for Crew<R> {
    fn requests(
        &self,
        alloc: Global,
        snapshot: &Snapshot,
        nodes: &[u32],
        tentative: &Tentative,
        part: Part,
    ) -> Result<Vec<(u32, u64)>, OutOfMemory> {
        let chunk = self.chunk as usize;
        if nodes.len() <= chunk {
            return Solo.requests(alloc, snapshot, nodes, tentative, part);
        }
        let lists = in_chunks(&self.permit, alloc, snapshot, nodes, tentative, part, chunk)?;
        joined(alloc, &lists)
    }
}

/// The lists of the chunks of nodes, in order.
fn in_chunks<R: Threads + Sync>(
    rt: &R,
    alloc: Global,
    snapshot: &Snapshot,
    nodes: &[u32],
    tentative: &Tentative,
    part: Part,
    chunk: usize,
) -> Result<Vec<Vec<(u32, u64)>>, OutOfMemory>
    requires nodes { All (λ u. (1 ≤ u) × (u ≤ snapshot.now.nodes)) nodes.now }
    requires size { length tentative.now ≡ snapshot.now.nodes + 1 }
    requires values { All (λ u. IsSome (value_at tentative.now u) × (value_or 0 tentative.now u < 2 ^ 56)) nodes.now }
    requires some { 1 ≤ chunk }
    ensures { IfOk result (λ lists. flat_map (λ list. list.items) lists.items ≡ requests_of snapshot.now nodes.now tentative.now part) }
{
    nodes
        .par_chunks(chunk)
        .map(
            move |some: &[u32]| -> Result<Vec<(u32, u64)>, OutOfMemory>
                requires nodes { All (λ u. (1 ≤ u) × (u ≤ snapshot.now.nodes)) some.now }
                requires size { length tentative.now ≡ snapshot.now.nodes + 1 }
                requires values { All (λ u. IsSome (value_at tentative.now u) × (value_or 0 tentative.now u < 2 ^ 56)) some.now }
                ensures { IfOk result (λ list. list.items ≡ requests_of snapshot.entry.now some.entry.now tentative.entry.now part) }
            { Solo.requests(alloc, snapshot, some, tentative, part) },
        )
        .collect::<Result<Vec<Vec<(u32, u64)>>, OutOfMemory>>(rt, alloc)?
}

/// How many requests the lists have together, up to the greatest number of the type.
fn count_of(lists: &[Vec<(u32, u64)>]) -> usize {
    let mut count: usize = 0;
    for list in lists {
        count = count.saturating_add(list.len());
    }
    count
}

/// The lists joined, with one copy of each request.
fn joined(alloc: Global, lists: &[Vec<(u32, u64)>]) -> Result<Vec<(u32, u64)>, OutOfMemory>
    ensures { IfOk result (λ list. list.items ≡ flat_map (λ list. list.items) lists.now) }
{
    let count = count_of(lists);
    let mut all = Vec::with_capacity(alloc, count)?;
    for list in lists {
        all.extend_from_slice(list)?;
    }
    Ok(all)
}
