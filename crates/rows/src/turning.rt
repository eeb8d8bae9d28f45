//! The arcs of a network the other way round, grouped.

ghost use Rattle.std.specs.Prelude.{IfOk, OnOk};
ghost use Rattle.roadnet.specs.Net.{IsNetwork};
ghost use Rattle.roadnet.specs.Reversal.{reversed};
ghost use Rattle.snapshot.specs.Groups.{IsSnapshotOf};
ghost use Rattle.rows.specs.Kept.{IsWidth};

use roadnet::{OutOfMemory, RoadArc};
use shared_network::SharedNetwork;
use snapshot::{Roads, Snapshot};
use std::alloc::Global;

/// The greatest width of a search's buckets.
pub const WIDEST: u32 = 2_147_483_647;

/// A network of which each arc is read the other way round.
#[derive(Drop)]
struct Reversed<'a> {
    network: &'a SharedNetwork,
}

impl Roads for Reversed<'_> {
    ghost use Rattle.roadnet.specs.Reversal.{reversed};

    ghost network = { λ roads. reversed roads.network.now };

    #[inline(always)]
    fn node_count(&self) -> u32 {
        self.network.nodes()
    }

    #[inline(always)]
    fn arc_count(&self) -> usize {
        self.network.arcs().len()
    }

    #[inline(always)]
    fn arc_at_place(&self, place: usize) -> RoadArc {
        self.network.arcs().get(place).reversed()
    }
}

/// The open arcs of a network the other way round, grouped by this width, for searches of the walks to a node. Its only error is lack of memory, for 8
/// bytes an open arc and 4 a node, and temporarily 4 an arc.
pub fn turned_groups(
    alloc: Global,
    network: &SharedNetwork,
    delta: u32,
) -> Result<Snapshot, OutOfMemory>
    requires delta { IsWidth delta }
    ensures network { OnOk result (IsNetwork network.now) }
    ensures arcs { IfOk result (IsSnapshotOf (reversed network.now)) }
{
    let _nodes = network.nodes();
    let turned = Snapshot::build(alloc, &Reversed { network }, delta)?;
    Ok(turned)
}
