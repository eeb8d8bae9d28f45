ghost use Rattle.std.specs.Prelude.{◌≡◌, ◌≤◌, IfOk};
ghost use Rattle.roadnet.specs.Net.{Net};
ghost use Rattle.roadnet.specs.Walks.{RowOf};
ghost use Rattle.snapshot.specs.Groups.{IsSnapshotOf};

use deltastep::{Distances, RowError, row};
use relax::Team;
use roadnet::OutOfMemory;
use snapshot::Snapshot;
use std::alloc::Global;

/// The least distances from a landmark, in the network of a version. It takes 4 or 8 bytes a node.
#[derive(Drop)]
pub struct Row {
    /// The node where the walks begin.
    pub landmark: u32,
    /// The version of the network.
    pub version: u64,
    /// The least length of a walk to each node, or that there is none.
    pub distances: Distances,
}

impl Row {
    /// The row of a node by delta-stepping with the given team. Its only error is lack of memory, for what `deltastep::row` takes.
    pub fn build<T: Team>(
        alloc: Global,
        version: u64,
        snapshot: &Snapshot,
        landmark: u32,
        team: &T,
    ) -> Result<Row, OutOfMemory>
        requires node { (1 ≤ landmark) × (landmark ≤ snapshot.now.nodes) }
        ensures version { IfOk result (λ row. row.version ≡ version) }
        ensures landmark { IfOk result (λ row. row.landmark ≡ landmark) }
        ensures distances { IfOk result (λ row. (net : Net) → IsSnapshotOf net snapshot.now → RowOf net landmark row.distances) }
    {
        match row(alloc, snapshot, landmark, team) {
            Ok(distances) => Ok(Row {
                landmark,
                version,
                distances,
            }),
            Err(RowError::OutOfMemory) => Err(OutOfMemory),
        }
    }
}
