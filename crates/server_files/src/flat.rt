//! Copies of networks that share nothing.
ghost use Rattle.std.specs.Prelude.{◌≡◌, IfOk};

use chunked::ChunkedArray;
use roadnet::{Network, OutOfMemory, RoadArc};
use shared_network::SharedNetwork;
use std::alloc::{AllocError, Global};

/// The arcs in a list of their own.
fn list_of(alloc: Global, arcs: &ChunkedArray<RoadArc>) -> Result<Vec<RoadArc>, AllocError>
    ensures { IfOk result (λ list. list.items ≡ arcs.now) }
{
    let mut list = Vec::with_capacity(alloc, arcs.len())?;
    for k in 0..arcs.chunk_count() {
        list.extend_from_slice(arcs.chunk(k))?;
    }
    Ok(list)
}

/// A copy of a network that shares nothing. The only error is lack of memory.
#[inline(never)]
pub(crate) fn flat_copy(alloc: Global, network: &SharedNetwork) -> Result<Network, OutOfMemory>
    ensures { IfOk result (λ copy. copy ≡ network.now) }
{
    let arcs = list_of(alloc, network.arcs())?;
    let Ok(made) = Network::new(alloc, network.nodes(), arcs, network.landmarks()) else {
        return Err(OutOfMemory);
    };
    match made.with_room(u64::from(network.room())) {
        Ok(copy) => Ok(copy),
        Err(_) => Err(OutOfMemory),
    }
}
