use fixtures::{longest, six};
use roadnet::{Network, Refusal};
use shared_network::SharedNetwork;
use snapshot::{Leg, Part, Snapshot, default_delta};
use std::alloc::Global;

/// The legs of a node, by head and length.
type Legs = &'static [(u32, u32)];

/// Whether these are the legs, by head and length.
fn are(legs: &[Leg], want: &[(u32, u32)]) -> bool {
    let mut same = legs.len() == want.len();
    for (leg, &(head, length)) in legs.iter().zip(want) {
        same = same && leg.head == head && leg.length == length;
    }
    same
}

/// The light and the heavy legs of the nodes of the six-node network from node 1 on, under delta 5.
const PARTS: [(u32, Legs, Legs); 6] = [
    (1, &[], &[(2, 17), (3, 10)]),
    (2, &[(4, 2)], &[]),
    (3, &[(5, 0)], &[]),
    (4, &[(3, 0), (6, 3)], &[]),
    (5, &[(2, 0)], &[(6, 20)]),
    (6, &[], &[]),
];

/// How many nodes of the six-node network have other legs under delta 5.
fn others(alloc: Global) -> Result<u32, Refusal> {
    let snapshot = Snapshot::build(alloc, &SharedNetwork::of(alloc, &six(alloc)?)?, 5)?;
    let mut count = 0u32;
    for (node, light, heavy) in PARTS {
        let same = are(snapshot.light(node), light) && are(snapshot.heavy(node), heavy);
        if !same || !are(snapshot.legs(node, Part::Heavy), heavy) || !snapshot.has_node(node) {
            count = count.saturating_add(1);
        }
    }
    if snapshot.nodes() != 6 || snapshot.delta() != 5 || snapshot.greatest() != 20 {
        count = count.saturating_add(10);
    }
    Ok(count)
}

#[test]
fn parts_of_the_six_node_network(rt: HostRuntime) {
    assert!(rt; others(rt.alloc()).expect(&rt, "the network is one") == 0);
}

/// The width that is taken for a network.
fn width_of(alloc: Global, network: &Network) -> Result<u32, Refusal> {
    Ok(default_delta(&SharedNetwork::of(alloc, network)?))
}

/// The widths that are taken for the six-node network, and for the one with the longest walks.
fn widths(alloc: Global) -> Result<(u32, u32), Refusal> {
    Ok((
        width_of(alloc, &six(alloc)?)?,
        width_of(alloc, &longest(alloc)?)?,
    ))
}

#[test]
fn the_delta_where_none_is_given(rt: HostRuntime) {
    let widths = widths(rt.alloc()).expect(&rt, "memory");
    assert!(rt; widths == (1, 2097152));
}
