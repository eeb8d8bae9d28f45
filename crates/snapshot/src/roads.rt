//! Networks as they are grouped: their nodes, and their arcs by places.

ghost use Rattle.std.specs.Prelude.{◌≡◌, ◌<◌, length, slice_index_or};
ghost use Rattle.roadnet.specs.declared.arcs.RoadArc.{RoadArc as road_arc};
ghost use Rattle.roadnet.specs.Net.{Net, IsNetwork};

use roadnet::RoadArc;
use shared_network::SharedNetwork;

/// A network whose arcs are read one by one: a network itself, or what is made of one arc by arc, of which nothing is kept.
pub trait Roads {
    /// The network.
    ghost network: { Self → Net };

    /// The number of nodes. They are numbered from 1 on.
    fn node_count(&self) -> u32
        ensures value { result ≡ (network self.now).nodes }
        ensures network { IsNetwork (network self.now) };

    /// The number of arcs.
    fn arc_count(&self) -> usize
        ensures { result ≡ length (network self.now).arcs };

    /// The arc at a place: arc k is at place k - 1.
    fn arc_at_place(&self, place: usize) -> RoadArc
        requires { place < length (network self.now).arcs }
        ensures { (d : road_arc) → slice_index_or (network self.now).arcs place d ≡ result };
}

impl Roads for SharedNetwork {
    ghost network = { λ net. net };

    #[inline(always)]
    fn node_count(&self) -> u32 {
        self.nodes()
    }

    #[inline(always)]
    fn arc_count(&self) -> usize {
        self.arcs().len()
    }

    #[inline(always)]
    fn arc_at_place(&self, place: usize) -> RoadArc {
        *self.arcs().get(place)
    }
}
