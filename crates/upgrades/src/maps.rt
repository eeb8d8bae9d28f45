// Whether a network was made from a map.

ghost use Rattle.std.specs.Prelude.{◌≡◌, ◌==◌, ◌&&◌, MatchBool};
ghost use Rattle.roadnet.specs.Ends.{KeepsEnds};
ghost use Rattle.upgrades.specs.Maps.{KeepsEndsAt};

use roadnet::{Network, RoadArc};

/// Whether the two arcs have the same ends.
fn have_same_ends(arc: &RoadArc, other: &RoadArc) -> bool
    ensures { result ≡ ((other.now.tail == arc.now.tail) && (other.now.head == arc.now.head)) }
{
    other.tail == arc.tail && other.head == arc.head
}

/// Whether the network has arc `number` of the map with the same ends, if the map has such an arc.
fn keeps_ends_at(map: &Network, network: &Network, number: u64) -> bool
    ensures { MatchBool result (KeepsEndsAt map.now network.now number) (¬ KeepsEndsAt map.now network.now number) }
{
    let Some(arc) = map.arc(number) else {
        return true;
    };
    let Some(other) = network.arc(number) else {
        return false;
    };
    have_same_ends(&arc, &other)
}

/// Whether the network was made from the map: it has the same nodes, and each arc of the map under the same number with the same ends. It may have more
/// arcs.
pub fn was_made_of(network: &Network, map: &Network) -> bool
    ensures { MatchBool result (KeepsEnds map.now network.now) (¬ KeepsEnds map.now network.now) }
{
    if network.nodes() != map.nodes() {
        return false;
    }
    for place in 0..map.arcs().len() {
        if !keeps_ends_at(map, network, place as u64 + 1) {
            return false;
        }
    }
    true
}
