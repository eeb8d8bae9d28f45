ghost use Rattle.std.specs.Prelude.{◌≡◌, ℕ, Some, Contains, IfOk, OnOk};
ghost use Rattle.roadnet.specs.declared.arcs.RoadArc.{RoadArc as road_arc};
ghost use Rattle.roadnet.specs.Net.{nth};
ghost use Rattle.snapshot.specs.Changes.{HasTailsOf};

use chunked::ChunkedArray;
use roadnet::{OutOfMemory, RoadArc};
use shared_network::SharedNetwork;
use std::alloc::{AllocError, Global};

/// Adds the tail of the arc of this number, if there is one.
fn add_tail(
    tails: &mut Vec<u32>,
    arcs: &ChunkedArray<RoadArc>,
    number: u32,
) -> Result<(), AllocError>
    ensures own { OnOk result ((arc : road_arc) → nth arcs.now number ≡ Some arc → Contains tails.new.items arc.tail) }
    ensures kept { OnOk result ((u : ℕ) → Contains tails.old.items u → Contains tails.new.items u) }
{
    if 1 <= number && number as usize <= arcs.len() {
        tails.push(arcs.get(number as usize - 1).tail)?;
    }
    Ok(())
}

/// The tails of these arcs: the nodes of which some leg may be another one once they changed. The one error is want of memory.
pub fn tails_of(
    alloc: Global,
    network: &SharedNetwork,
    numbers: &[u32],
) -> Result<Vec<u32>, OutOfMemory>
    ensures { IfOk result (λ tails. HasTailsOf network.now numbers.now tails.items) }
{
    let arcs = network.arcs();
    let mut tails = Vec::with_capacity(alloc, numbers.len())?;
    for &number in numbers {
        add_tail(&mut tails, arcs, number)?;
    }
    Ok(tails)
}
