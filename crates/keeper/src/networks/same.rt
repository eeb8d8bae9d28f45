// Whether two networks are equal, compared arc by arc.
ghost use Rattle.std.specs.Prelude.{◌≡◌};
ghost use Rattle.std.specs.Bool.{Decides};

use chunked::ChunkedArray;
use roadnet::{Network, RoadArc};
use shared_network::SharedNetwork;

fn are_same_arcs(some: &[RoadArc], others: &ChunkedArray<RoadArc>) -> bool
    ensures { Decides result (some.now ≡ others.now) }
{
    if some.len() != others.len() {
        return false;
    }
    for place in 0..some.len() {
        if some[place] != *others.get(place) {
            return false;
        }
    }
    true
}

fn are_same_nodes(some: &[u32], others: &[u32]) -> bool
    ensures { Decides result (some.now ≡ others.now) }
{
    some == others
}

/// Whether a network and one that shares its arcs have the same nodes, arcs, landmarks and room.
pub fn is_same(one: &Network, other: &SharedNetwork) -> bool
    ensures { Decides result (one.now ≡ other.now) }
{
    one.nodes() == other.nodes()
        && one.room() == other.room()
        && are_same_nodes(one.landmarks(), other.landmarks())
        && are_same_arcs(one.arcs(), other.arcs())
}
