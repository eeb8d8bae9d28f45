ghost use Rattle.std.specs.Prelude.{◌≤◌};
ghost use Rattle.roadnet.specs.Ends.{KeepsEnds};
ghost use Rattle.snapshot.specs.Blocks.{DiffersOnlyAt};

use fixtures::six;
use roadnet::{Command, Group, Refusal};
use shared_network::SharedNetwork;
use snapshot::{ArcIndex, Leg, Part, Snapshot, changed_arcs, tails_of};
use std::alloc::Global;
use std::array::from_ref;

/// Whether two lists of legs are the same.
fn are_same(legs: &[Leg], others: &[Leg]) -> bool {
    legs == others
}

/// How many legs of one kind a snapshot has of a node, and whether another one has the same.
fn compare_node(one: &Snapshot, other: &Snapshot, node: u32, part: Part) -> (usize, bool) {
    let (legs, others) = (one.legs(node, part), other.legs(node, part));
    (legs.len(), are_same(legs, others))
}

/// The same of the nodes up to 6.
fn compare_part(one: &Snapshot, other: &Snapshot, part: Part) -> (usize, bool) {
    let mut count = 0usize;
    let mut same = true;
    for node in 0..7 {
        let (own, as_other) = compare_node(one, other, node, part);
        count = count.saturating_add(own);
        same = same && as_other;
    }
    (count, same)
}

/// The same of all legs.
fn compare(one: &Snapshot, other: &Snapshot) -> (usize, bool) {
    let (light, light_same) = compare_part(one, other, Part::Light);
    let (heavy, heavy_same) = compare_part(one, other, Part::Heavy);
    (light.saturating_add(heavy), light_same && heavy_same)
}

/// The snapshot of a network, brought to a newer one, of which these arcs differ.
fn brought(
    alloc: Global,
    older: &SharedNetwork,
    newer: &SharedNetwork,
    numbers: &[u32],
    delta: u32,
) -> Result<Snapshot, Refusal>
    requires delta { (1 ≤ delta) × (delta ≤ 2147483647) }
    requires ends { KeepsEnds older.now newer.now }
    requires differs { DiffersOnlyAt numbers.now older.now newer.now }
{
    let before = Snapshot::build(alloc, older, delta)?;
    let index = ArcIndex::build(alloc, newer)?;
    Ok(before.after(alloc, newer, &index, numbers)?)
}

/// The network of the worked rows after a command, the arcs that it changes, and a snapshot that was brought to it.
#[derive(Drop)]
struct Changed {
    newer: SharedNetwork,
    numbers: Vec<u32>,
    after: Snapshot,
}

/// What a command changes, with snapshots of this delta.
fn changed_by(alloc: Global, command: Command, delta: u32) -> Result<Changed, Refusal>
    requires delta { (1 ≤ delta) × (delta ≤ 2147483647) }
{
    let older = SharedNetwork::of(alloc, &six(alloc)?)?;
    let group = Group::one(command);
    let newer = older.after(alloc, from_ref(&group))?;
    let numbers = changed_arcs(alloc, &older, &newer, from_ref(&group))?;
    let after = brought(alloc, &older, &newer, &numbers, delta)?;
    Ok(Changed {
        newer,
        numbers,
        after,
    })
}

/// How many arcs a group changes, how many nodes they leave, how many legs the snapshot after it has, and whether one made anew has the same.
fn closed(alloc: Global) -> Result<(usize, usize, (usize, bool)), Refusal> {
    let changed = changed_by(alloc, Command::Close { arc: 7 }, 5)?;
    let tails = tails_of(alloc, &changed.newer, &changed.numbers)?;
    let anew = Snapshot::build(alloc, &changed.newer, 5)?;
    let compared = compare(&changed.after, &anew);
    Ok((changed.numbers.len(), tails.len(), compared))
}

/// One arc is named, and one node loses its leg. Refused is a list with arcs that are the same.
#[test]
fn snapshot_after_a_change(rt: HostRuntime) {
    let found = closed(rt.alloc()).expect(&rt, "the group is admitted");
    assert!(rt; found == (1, 1, (7, true)));
}

/// The width by which a search takes the legs, once the arc of length 0 to node 2 has a million: the eight arcs have 1,000,052 together.
fn width_after(alloc: Global) -> Result<u32, Refusal> {
    let longer = Command::Set {
        arc: 7,
        length: 1_000_000,
    };
    let changed = changed_by(alloc, longer, 2_147_483_647)?;
    match changed.after.narrowed()? {
        Some(narrow) => Ok(narrow.delta()),
        None => Ok(0),
    }
}

/// The greatest power of two up to the mean length, 125,006. No clause tells it. Refused is a body that carries on the sums of the older legs.
#[test]
fn width_after_a_change(rt: HostRuntime) {
    let width = width_after(rt.alloc()).expect(&rt, "the group is admitted");
    assert!(rt; width == 65_536);
}
