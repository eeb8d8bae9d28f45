//! Rows of many nodes, made side by side.

ghost use Rattle.std.specs.Prelude.{◌≡◌, ◌≤◌, All, IfOk};
ghost use Rattle.roadnet.specs.Net.{Net};
ghost use Rattle.snapshot.specs.Groups.{IsSnapshotOf};
ghost use Rattle.rows.specs.Batches.{IsRowOfOne, AreNodes};
ghost use Rattle.kept_rows.specs.Cached.{KeepsOthers, HasRowsOf, HasNoNewRow, capacity_of};

use deltastep::{Distances, Workspace, row_in};
use kept_rows::RowCache;
use rayon::prelude::*;
use relax::{Permit, Solo};
use roadnet::OutOfMemory;
use snapshot::Snapshot;
use std::alloc::{AllocError, Global};
use std::thread::Threads;

/// The most threads that make rows side by side.
const WORKERS: usize = 4;

/// The rows of nodes, one after the other, each beside its node.
fn one_by_one(
    alloc: Global,
    snapshot: &Snapshot,
    sources: &[u32],
) -> Result<Vec<(u32, Distances)>, OutOfMemory>
    requires { AreNodes snapshot.now.nodes sources.now }
    ensures { IfOk result (λ rows. All (IsRowOfOne snapshot.now) rows.items) }
{
    let mut workspace = Workspace::new();
    let mut rows = Vec::with_capacity(alloc, sources.len())?;
    for source in sources {
        let Ok(distances) = row_in(alloc, snapshot, *source, &Solo, &mut workspace) else {
            return Err(OutOfMemory);
        };
        if rows.push((*source, distances)).is_err() {
            return Err(OutOfMemory);
        }
    }
    Ok(rows)
}

/// The rows of nodes, in parts of so many nodes: the parts are made side by side.
fn in_parts<R: Threads + Sync>(
    rt: &R,
    alloc: Global,
    snapshot: &Snapshot,
    sources: &[u32],
    each: usize,
) -> Result<Vec<Vec<(u32, Distances)>>, OutOfMemory>
    requires nodes { AreNodes snapshot.now.nodes sources.now }
    requires some { 1 ≤ each }
    ensures { IfOk result (λ lists. All (λ list. All (IsRowOfOne snapshot.now) list.items) lists.items) }
{
    sources
        .par_chunks(each)
        .with_min_len(1)
        .map(
            move |some: &[u32]| -> Result<Vec<(u32, Distances)>, OutOfMemory>
                requires { AreNodes snapshot.now.nodes some.now }
                ensures { IfOk result (λ list. All (IsRowOfOne snapshot.entry.now) list.items) }
            { one_by_one(alloc, snapshot, some) },
        )
        .collect::<Result<Vec<Vec<(u32, Distances)>>, OutOfMemory>>(rt, alloc)?
}

/// Those of the nodes whose rows are not kept. The rows that are kept count as used.
fn missing(
    alloc: Global,
    version: u64,
    nodes: u32,
    cache: &mut RowCache,
    sources: &[u32],
) -> Result<Vec<u32>, OutOfMemory>
    requires { AreNodes nodes sources.now }
    ensures nodes { IfOk result (λ missing. AreNodes nodes missing.items) }
    ensures rows { HasNoNewRow cache.old cache.new }
    ensures capacity { capacity_of cache.new ≡ capacity_of cache.old }
{
    let mut missing = Vec::with_capacity(alloc, sources.len())?;
    for source in sources {
        if cache.promote(version, *source) {
            continue;
        }
        if missing.push(*source).is_err() {
            return Err(OutOfMemory);
        }
    }
    Ok(missing)
}

/// Makes the cache keep the rows of these nodes, if there is memory for them. Those that it lacks are made side by side, by up to four threads. If it lacks
/// one row alone, that is left to the query that needs it, whose search uses several threads. The only error is lack of memory; then it lacks what it
/// lacked.
pub(crate) fn fetch_rows<R: Threads>(
    rt: &R,
    alloc: Global,
    version: u64,
    snapshot: &Snapshot,
    cache: &mut RowCache,
    sources: &[u32],
) -> Result<(), OutOfMemory>
    requires { AreNodes snapshot.now.nodes sources.now }
    ensures kept { (net : Net) → IsSnapshotOf net snapshot.now → HasRowsOf version net cache.old → HasRowsOf version net cache.new }
    ensures others { KeepsOthers version cache.old cache.new }
    ensures capacity { capacity_of cache.new ≡ capacity_of cache.old }
{
    let missing = missing(alloc, version, snapshot.nodes(), cache, sources)?;
    if missing.len() < 2 {
        return Ok(());
    }
    let permit = Permit::of(rt);
    let each = missing.len().div_ceil(WORKERS);
    let mut parts = in_parts(&permit, alloc, snapshot, &missing, each)?;
    while let Some(rows) = parts.pop() {
        cache.keep_all(version, rows);
    }
    Ok(())
}
