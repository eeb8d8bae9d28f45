// What is asked of a network, and of the rows of it that a cache keeps.
ghost use Rattle.std.specs.Prelude.{◌≡◌, ◌≤◌, None, true, IsSome, IfSome, IsOk, IfOk, IfErr, OnOk, OnErr, MatchOption};
ghost use Rattle.roadnet.specs.Net.{Net, IsNode};
ghost use Rattle.roadnet.specs.Step.{is_node};
ghost use Rattle.snapshot.specs.Groups.{IsSnapshotOf};
ghost use Rattle.kept_rows.specs.Cached.{capacity_of, rows_of, HasRowsOf, HasNoNewRow, HasUsed, KeepsOthers, row_kept, rows_used};
ghost use Rattle.rows.specs.Nearby.{node_of, IsNear, IsUntold};
ghost use Rattle.rows.specs.Replies.{IsDistance};

use crate::answers::{distance_by, distance_in};
use crate::askers::Asker;
use crate::nearby::Near;
use crate::queries::Reply;
use deltastep::{NodeDistance, RowError, row_in};
use kept_rows::RowCache;
use relax::{CHUNK, Crew};
use roadnet::{OutOfMemory, Refusal};
use snapshot::Snapshot;
use std::alloc::Global;
use std::thread::Threads;

/// What the row of this version and source says of the walks to a node, if that row is kept. It then counts as used.
fn found(cache: &mut RowCache, version: u64, source: u32, target: u64) -> Option<Reply>
    ensures found { IfSome result (λ reply. (net : Net) → HasRowsOf version net cache.old → IsNode net target → IsDistance net source target reply) }
    ensures rows { HasNoNewRow cache.old cache.new }
    ensures missed { result ≡ None → rows_of cache.new ≡ rows_of cache.old }
    ensures held { MatchOption result (row_kept version source cache.old ≡ None) (λ _. IsSome (row_kept version source cache.old)) }
    ensures used { rows_of cache.new ≡ rows_used version source cache.old }
    ensures capacity { capacity_of cache.new ≡ capacity_of cache.old }
{
    let length = cache.find(version, source, target)?;
    Some(distance_by(length))
}

/// The least length of a walk from one node to another, in each network that has these groups: from the row of this version and source, if it is kept,
/// otherwise from a new one, which is then kept if there is memory for it. The row is never copied.
///
/// The only error is lack of memory for a new row; then what was kept stays.
pub(crate) fn distance<R: Threads>(
    rt: &R,
    alloc: Global,
    cache: &mut RowCache,
    version: u64,
    snapshot: &Snapshot,
    source: u32,
    target: u64,
) -> Result<Reply, OutOfMemory>
    requires node { (1 ≤ source) × (source ≤ snapshot.now.nodes) }
    ensures distance { IfOk result (λ reply. (net : Net) → IsSnapshotOf net snapshot.now → HasRowsOf version net cache.old → IsNode net target → IsDistance net source target reply) }
    ensures kept { (net : Net) → IsSnapshotOf net snapshot.now → HasRowsOf version net cache.old → HasRowsOf version net cache.new }
    ensures others { KeepsOthers version cache.old cache.new }
    ensures held { IsSome (row_kept version source cache.old) → IsOk result }
    ensures used { HasUsed version source cache.old cache.new }
    ensures cut { OnErr result (rows_of cache.new ≡ rows_of cache.old) }
    ensures capacity { capacity_of cache.new ≡ capacity_of cache.old }
{
    if let Some(reply) = found(cache, version, source, target) {
        return Ok(reply);
    }
    let crew = Crew::new(rt, CHUNK);
    match row_in(alloc, snapshot, source, &crew, &mut cache.workspace) {
        Ok(distances) => {
            let reply = distance_in(&distances, target);
            cache.keep(version, source, distances);
            Ok(reply)
        }
        Err(RowError::OutOfMemory) => Err(OutOfMemory),
    }
}

/// The distance between two nodes of a network, by a search that ends at the target. It keeps no row.
pub(crate) fn stopped<R: Threads>(
    rt: &R,
    alloc: Global,
    cache: &mut RowCache,
    asker: &Asker,
    source: u32,
    target: u32,
) -> Result<Reply, OutOfMemory>
    requires source { IsNode asker.now.network source }
    requires target { IsNode asker.now.network target }
    ensures distance { IfOk result (IsDistance asker.now.network source target) }
    ensures rows { rows_of cache.new ≡ rows_of cache.old }
{
    let crew = Crew::new(rt, CHUNK);
    asker.distance(alloc, source, target, &crew, &mut cache.workspace)
}

/// What is near a node of a network. It keeps no row.
pub(crate) fn near_of<R: Threads>(
    rt: &R,
    alloc: Global,
    cache: &mut RowCache,
    asker: &Asker,
    near: Near,
) -> Result<Vec<NodeDistance>, Refusal>
    ensures near { IfOk result (λ told. IsNear asker.now.network near told.items) }
    ensures node { OnOk result (is_node asker.now.network (node_of near) ≡ true) }
    ensures causes { IfErr result (IsUntold (is_node asker.now.network (node_of near))) }
    ensures rows { rows_of cache.new ≡ rows_of cache.old }
{
    let crew = Crew::new(rt, CHUNK);
    asker.near(alloc, near, None, &crew, &mut cache.workspace)
}
