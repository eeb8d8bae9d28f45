ghost use Rattle.std.specs.Prelude.{◌≡◌, ℕ, ◌<◌, ◌≤◌, ◌^◌, IfOk, MatchBool, All, length, sum};
ghost use Rattle.roadnet.specs.Net.{IsNode, IsArcAmong};
ghost use Rattle.roadnet.specs.Walks.{RowOf};
ghost use Rattle.deltastep.specs.Tentative.{IsBounded, IsWalked, IsArcSettled, IsLowered};

use crate::rows::distances::{Distances, NO_WALK, RowError};
use roadnet::RoadArc;
use shared_network::SharedNetwork;
use std::alloc::Global;

/// The row of `source`: the least length of a walk from it to each node, or that there is none.
///
/// It passes over all arcs in rounds, and lowers the length of each node that an open arc brings nearer, until a round lowers nothing: at most as many
/// rounds as there are nodes, fewer if the arcs are in the order of the walks. It is the slow implementation with which others are compared. Its only error
/// is lack of memory, for 8 bytes a node.
///
/// In the network of `examples/six.gr`, the row of node 1 has the lengths 0, 10, 10, 12, 10 and 15, as that of `row`.
pub fn plain_row(alloc: Global, network: &SharedNetwork, source: u32) -> Result<Distances, RowError>
    requires { IsNode network.now source }
    ensures { IfOk result (λ row. RowOf network.now source row) }
{
    let nodes = network.nodes() as usize;
    let mut words = vec![in alloc; NO_WALK; nodes]?;
    words[source as usize - 1] = 0;
    'rounds: while relax_all(network, &mut words) {}
    Distances::from_words(words)
}

/// Relaxes each arc once. Returns whether some node came nearer.
fn relax_all(network: &SharedNetwork, words: &mut [u64]) -> bool
    requires { IsBounded network.now.nodes words.old }
    ensures bounded { IsBounded network.now.nodes words.new }
    ensures walked { (s : ℕ) → IsWalked network.now s words.old → IsWalked network.now s words.new }
    ensures cases { MatchBool result (sum words.new < sum words.old) ((words.new ≡ words.old) × All (IsArcSettled words.old) network.now.arcs) }
{
    let mut nearer = false;
    let arcs = network.arcs();
    for place in 0..arcs.len() {
        if relax(*arcs.get(place), words) {
            nearer = true;
        }
    }
    nearer
}

/// Lowers the word of the arc's head to the length of the way by this arc, if that is less.
fn relax(arc: RoadArc, words: &mut [u64]) -> bool
    requires arc { IsArcAmong (length words.old) arc }
    requires bounded { IsBounded (length words.old) words.old }
    requires few { length words.old ≤ 2 ^ 25 }
    ensures { MatchBool result (IsLowered arc words.old words.new) ((words.new ≡ words.old) × IsArcSettled words.old arc) }
{
    let tail = words[arc.tail as usize - 1];
    if !arc.opened || tail == NO_WALK {
        return false;
    }
    let through = tail + u64::from(arc.length);
    let head = &mut words[arc.head as usize - 1];
    if through < *head {
        *head = through;
        true
    } else {
        false
    }
}
