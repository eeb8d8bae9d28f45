use fixtures::{arc, network};
use roadnet::{Command, Network, Refusal, RoadArc};
use std::alloc::Global;
use upgrades::{Counts, laws_of_upgrades, upgraded};

/// The map that the store of the worked row was made of: two parallel arcs from 1 to 2.
const OLD: [(u32, u32, u32); 5] = [(1, 2, 17), (1, 2, 9), (2, 3, 5), (3, 4, 7), (4, 5, 3)];

/// The new map: no node 6, a second arc from 4 to 5, a new one from 5 to 1, and one from 5 to 2, which was laid in the store.
const NEW: [(u32, u32, u32); 8] = [
    (2, 3, 6),
    (1, 2, 18),
    (3, 4, 10),
    (1, 2, 10),
    (4, 5, 3),
    (4, 5, 4),
    (5, 1, 1),
    (5, 2, 12),
];

/// What was changed in the store: arc 3 closed, arc 4 made longer, three arcs laid.
const CHANGES: [Command; 5] = [
    Command::Close { arc: 3 },
    Command::Set { arc: 4, length: 8 },
    Command::Lay {
        tail: 5,
        head: 6,
        length: 4,
    },
    Command::Lay {
        tail: 6,
        head: 1,
        length: 2,
    },
    Command::Lay {
        tail: 5,
        head: 2,
        length: 11,
    },
];

/// The network that is stored: that of the old map, with landmarks 2 and 6, and changed so.
fn stored(alloc: Global) -> Result<Network, Refusal> {
    let mut changed = match network(alloc, 6, &OLD, &[2, 6])?.with_room(8) {
        Ok(roomy) => roomy,
        Err((refusal, _)) => return Err(refusal),
    };
    for command in CHANGES {
        changed.apply(command)?;
    }
    Ok(changed)
}

/// What is told where the stored network is brought to the new map.
#[tactic(auto, using(std::proofs::lemmas::List::nil_from_length))]
fn brought(alloc: Global) -> Result<(Network, Counts), Refusal> {
    let old = network(alloc, 6, &OLD, &[])?;
    let new = network(alloc, 5, &NEW, &[])?;
    if !new.landmarks().is_empty() {
        return Err(Refusal::AlreadyLandmark);
    }
    upgraded(alloc, &stored(alloc)?, &old, new)
}

/// Whether these are the arcs of the worked row.
fn are_worked(arcs: &[RoadArc]) -> bool {
    let closed = RoadArc {
        opened: false,
        ..arc(2, 3, 6)
    };
    let want = [
        closed,
        arc(1, 2, 18),
        arc(3, 4, 8),
        arc(1, 2, 10),
        arc(4, 5, 3),
        arc(4, 5, 4),
        arc(5, 1, 1),
        arc(5, 2, 11),
    ];
    arcs == want.as_slice()
}

/// Landmark 6 is gone with its node, and there is room for no more arcs.
#[test]
fn the_worked_row(rt: HostRuntime) {
    let (made, counts) = brought(rt.alloc()).expect(&rt, "the old map is that of the store");
    let told = Counts {
        kept: 5,
        added: 1,
        gone: 2,
        doubtful: 2,
        landmarks_gone: 1,
    };
    let landmarks = made.landmarks() == [2].as_slice();
    assert!(rt; are_worked(made.arcs()) && landmarks && counts == told);
    assert!(rt; made.nodes() == 5 && made.room() == 8);
    laws_of_upgrades();
}
