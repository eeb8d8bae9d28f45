//! Networks with their arcs the other way round.

ghost use Rattle.std.specs.Prelude.{◌≡◌, IfOk, map};
ghost use Rattle.roadnet.specs.Reversal.{reversed, reversed_arc};

use crate::networks::SharedNetwork;
use chunked::ChunkedArray;
use roadnet::{OutOfMemory, RoadArc};
use std::alloc::AllocError;
use std::sync::Arc;

/// The arcs the other way round, in the same order.
fn reversed_arcs(arcs: &ChunkedArray<RoadArc>) -> Result<ChunkedArray<RoadArc>, AllocError>
    ensures { IfOk result (λ all. all ≡ map reversed_arc arcs.now) }
{
    let mut all = arcs.share()?;
    for place in 0..arcs.len() {
        all.set(place, arcs.get(place).reversed())?;
    }
    Ok(all)
}

impl SharedNetwork {
    /// The network with each arc the other way round, from the same allocator. There, the row of a node has the distances to that node here.
    ///
    /// The only error is lack of memory, for 16 bytes an arc.
    pub fn reversed(&self) -> Result<SharedNetwork, OutOfMemory>
        ensures network { IfOk result (λ network. network ≡ reversed self.now) }
    {
        Ok(SharedNetwork {
            nodes: self.nodes,
            arcs: reversed_arcs(&self.arcs)?,
            landmarks: Arc::try_clone(&self.landmarks)?,
            room: self.room,
        })
    }
}
