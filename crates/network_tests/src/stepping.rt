use fixtures::six;
use roadnet::{
    Command, Group, Network, OutOfMemory, Outline, Refusal, laws_of_batches, laws_of_refusals,
    laws_of_reversal, laws_of_steps, laws_of_walks,
};
use std::alloc::{AllocError, Global};
use std::array::from_ref;

const CLOSE: Command = Command::Close { arc: 7 };

const REOPEN: Command = Command::Reopen { arc: 7 };

/// From node 6 to node 1, of length 7: the ninth arc.
const LAY: Command = Command::Lay {
    tail: 6,
    head: 1,
    length: 7,
};

/// Commands, and the number of the refusal of each by the network of the worked rows.
const REFUSED: [(Command, u8); 6] = [
    (Command::Set { arc: 9, length: 1 }, 20),
    (
        Command::Set {
            arc: 1,
            length: 2147483648,
        },
        21,
    ),
    (
        Command::Set {
            arc: 9,
            length: 2147483648,
        },
        20,
    ),
    (Command::Mark { node: 7 }, 24),
    (Command::Unmark { node: 3 }, 26),
    (REOPEN, 23),
];

/// How many commands the network refuses otherwise, as they are judged or as they are carried out.
fn refused_otherwise(alloc: Global) -> Result<u32, Refusal> {
    let mut network = six(alloc)?;
    let mut count = 0u32;
    for (command, number) in REFUSED {
        let admitted = network.admit(&command).err();
        let applied = network.apply(command).err();
        if admitted != applied || admitted.map(|refusal| refusal.number()) != Some(number) {
            count = count.saturating_add(1);
        }
    }
    Ok(count)
}

#[test]
fn refusals_of_commands(rt: HostRuntime) {
    assert!(rt; refused_otherwise(rt.alloc()).expect(&rt, "the network is one") == 0);
}

fn are_equal(network: &Network, other: &Network) -> bool {
    network.arcs() == other.arcs()
        && network.landmarks() == other.landmarks()
        && network.nodes() == other.nodes()
        && network.room() == other.room()
}

/// The network of the worked rows with room for ten arcs.
fn roomy(alloc: Global) -> Result<Network, Refusal> {
    match six(alloc)?.with_room(10) {
        Ok(network) => Ok(network),
        Err((refusal, _)) => Err(refusal),
    }
}

/// Whether the network is as it was when the group is carried out and taken back.
fn is_taken_back(network: &Network, group: &Group) -> Result<bool, Refusal> {
    let mut changed = network.copy()?;
    let undo = changed.carry_out(from_ref(group))?;
    changed.take_back(undo);
    Ok(are_equal(&changed, network))
}

/// Whether a group changes the network as its commands do, one after the other, and is taken back.
fn goes_as_in_turn(
    alloc: Global,
    network: &Network,
    commands: &[Command],
) -> Result<bool, Refusal> {
    let group = Group::new(Vec::from_slice(alloc, commands).map_err(AllocError::from)?)?;
    let mut grouped = network.copy()?;
    grouped.apply_group(&group)?;
    let mut in_turn = network.copy()?;
    for &command in commands {
        in_turn.apply(command)?;
    }
    let admitted = network.admit_groups(from_ref(&group)).is_ok();
    Ok(admitted && are_equal(&grouped, &in_turn) && is_taken_back(network, &group)?)
}

#[test]
fn groups_go_as_their_commands_in_turn(rt: HostRuntime) {
    let network = roomy(rt.alloc()).expect(&rt, "the network is one");
    let rows: [&[Command]; 2] = [
        &[
            CLOSE,
            Command::Set { arc: 8, length: 4 },
            REOPEN,
            Command::Mark { node: 3 },
        ],
        &[
            LAY,
            Command::Close { arc: 9 },
            LAY,
            Command::Set { arc: 10, length: 8 },
        ],
    ];
    for commands in rows {
        let goes = goes_as_in_turn(rt.alloc(), &network, commands).expect(&rt, "it is admitted");
        assert!(rt; goes, "{commands:?}");
    }
}

/// Commands to a network in turn, and to its outline, and the number of the refusal of each.
const IN_TURN: [(Command, Option<u8>); 4] = [
    (CLOSE, None),
    (CLOSE, Some(22)),
    (LAY, None),
    (Command::Close { arc: 9 }, None),
];

/// How many commands go otherwise by the network or by its outline.
fn outlined_otherwise(alloc: Global) -> Result<u32, Refusal> {
    let mut network = roomy(alloc)?;
    let mut outline = Outline::of(alloc, &network)?;
    let mut count = 0u32;
    for (command, number) in IN_TURN {
        let judged = outline.admit(&command).err();
        let outlined = outline.apply_group(&Group::one(command)).err();
        let same = judged == outlined && network.apply(command).err() == judged;
        if !same || judged.map(|refusal| refusal.number()) != number {
            count = count.saturating_add(1);
        }
    }
    Ok(count)
}

#[test]
fn outlines_judge_as_their_networks(rt: HostRuntime) {
    assert!(rt; outlined_otherwise(rt.alloc()).expect(&rt, "the network is one") == 0);
}

const PRINTED: [(Refusal, &str); 6] = [
    (Refusal::NumberRange, "5 NumberRange"),
    (Refusal::GroupSize, "13 GroupSize"),
    (Refusal::NoSuchArc, "20 NoSuchArc"),
    (Refusal::NoRoom, "29 NoRoom"),
    (Refusal::Damaged { page: 6 }, "42 Damaged page 6"),
    (Refusal::NoThread, "63 NoThread"),
];

#[test]
fn refusals_are_printed_with_their_numbers(rt: HostRuntime) {
    for (refusal, text) in PRINTED {
        let printed = format!(in rt.alloc(); "{refusal}").expect(&rt, "memory");
        assert!(rt; printed.as_str() == text, "{text}");
    }
    let memory = OutOfMemory;
    let printed = format!(in rt.alloc(); "{memory}").expect(&rt, "memory");
    assert!(rt; printed.as_str() == "11 OutOfMemory");
}

#[test]
fn the_laws_are_called() {
    laws_of_batches();
    laws_of_steps();
    laws_of_refusals();
    laws_of_walks();
    laws_of_reversal();
}
