//! How much of a network searches settle, by a team that counts its requests and a guide that counts its bounds.

ghost use Rattle.std.specs.Prelude.{◌≡◌, IfOk};

use deltastep::{
    Guide, Workspace, changed_nodes, distance_to_in, row, row_after, values_guided_in,
};
use fixtures::arc;
use relax::{Solo, Team, Tentative};
use roadnet::{Command, Group, Network, OutOfMemory, Refusal, RoadArc};
use rows::numbered_back;
use shared_network::SharedNetwork;
use snapshot::{Part, Snapshot};
use std::alloc::{AllocError, Global};
use std::array::from_ref;
use std::cell::Cell;

/// A team of one worker that counts the requests that it makes.
#[derive(Drop)]
struct Counting {
    made: Cell<usize>,
}

impl Team for Counting {
    fn requests(
        &self,
        alloc: Global,
        snapshot: &Snapshot,
        nodes: &[u32],
        tentative: &Tentative,
        part: Part,
    ) -> Result<Vec<(u32, u64)>, OutOfMemory> {
        let requests = Solo.requests(alloc, snapshot, nodes, tentative, part)?;
        self.made
            .set(self.made.get().saturating_add(requests.len()));
        Ok(requests)
    }
}

/// A guide whose bounds are 0, and that counts how many it gives.
#[derive(Drop)]
struct Idle {
    target: u32,
    given: Cell<u32>,
}

impl Guide for Idle {
    ghost target = { λ guide. guide.target };

    ghost knows = { λ _ _. Unit {0} };

    fn bound(&self, _node: u32) -> u64 {
        self.given.set(self.given.get().saturating_add(1));
        0
    }
}

/// 10,000 nodes in a ladder: two on each rung, and from each of them an arc of length 1 to both nodes of the next rung.
fn ladder(alloc: Global) -> Result<Network, Refusal>
    ensures nodes { IfOk result (λ made. made.nodes ≡ 10000) }
{
    let mut arcs = Vec::new(alloc);
    for node in 1..9_999 {
        let next = node + node % 2 + 1;
        arcs.push(arc(node, next, 1)).map_err(AllocError::from)?;
        arcs.push(arc(node, next + 1, 1)).map_err(AllocError::from)?;
    }
    Network::new(alloc, 10_000, arcs, &[])
}

/// How many requests are made for the row of node 1, and how many for its distance to a node ten rungs on.
fn made_for(alloc: Global, groups: &Snapshot) -> Result<(usize, usize), Refusal> {
    if !groups.has_node(1) || !groups.has_node(21) {
        return Err(Refusal::NoSuchNode);
    }
    let team = Counting { made: Cell::new(0) };
    let _row = row(alloc, groups, 1, &team).map_err(|_| Refusal::OutOfMemory)?;
    let whole = team.made.replace(0);
    let _length = distance_to_in(alloc, groups, 1, 21, &team, &mut Workspace::new()).map_err(
        |_| Refusal::OutOfMemory,
    )?;
    Ok((whole, team.made.get()))
}

/// Adds an arc of this length from each of the two nodes to the other.
fn add_both(arcs: &mut Vec<RoadArc>, one: u32, other: u32, length: u32) -> Result<(), AllocError> {
    arcs.push(arc(one, other, length))
        .map_err(AllocError::from)?;
    arcs.push(arc(other, one, length))
        .map_err(AllocError::from)?;
    Ok(())
}

/// 50 by 50 nodes in a square, and arcs of lengths from 65 to 128 between neighbours.
fn square(alloc: Global) -> Result<Network, Refusal> {
    let mut arcs = Vec::new(alloc);
    for node in 1..2_501 {
        let length = node * 37 % 64 + 65;
        if node % 50 != 0 {
            add_both(&mut arcs, node, node + 1, length)?;
        }
        if node <= 2_450 {
            add_both(&mut arcs, node, node + 50, length)?;
        }
    }
    Network::new(alloc, 2_500, arcs, &[])
}

/// How many bounds are given to a search from node 1 to the target.
fn given_for(alloc: Global, groups: &Snapshot, target: u32) -> Result<u32, Refusal> {
    if !groups.has_node(1) || !groups.has_node(target) {
        return Err(Refusal::NoSuchNode);
    }
    let guide = Idle {
        target,
        given: Cell::new(0),
    };
    let _values = values_guided_in(alloc, groups, 1, target, &guide, &mut Workspace::new()).map_err(
        |_| Refusal::OutOfMemory,
    )?;
    Ok(guide.given.get())
}

/// What `made_for` counts in the ladder, and how many bounds are given to a search for a node in the middle, 2,500 rungs on.
fn counted(alloc: Global) -> Result<(usize, usize, u32), Refusal> {
    let groups = Snapshot::build(alloc, &SharedNetwork::of(alloc, &ladder(alloc)?)?, 1)?;
    let (whole, near) = made_for(alloc, &groups)?;
    Ok((whole, near, given_for(alloc, &groups, 5_001)?))
}

/// How many nodes have other legs after a change, and how many requests are made to repair the row of node 1.
fn repaired(
    alloc: Global,
    before: &SharedNetwork,
    after: &SharedNetwork,
) -> Result<(usize, usize), Refusal> {
    let older = Snapshot::build(alloc, before, 1)?;
    let newer = Snapshot::build(alloc, after, 1)?;
    if older.nodes() != newer.nodes() || !newer.has_node(1) {
        return Err(Refusal::NoSuchNode);
    }
    let Ok(old) = row(alloc, &older, 1, &Solo) else {
        return Err(Refusal::OutOfMemory);
    };
    let Ok(changed) = changed_nodes(alloc, &older, &newer) else {
        return Err(Refusal::OutOfMemory);
    };
    let Ok(back) = numbered_back(alloc, after) else {
        return Err(Refusal::OutOfMemory);
    };
    let team = Counting { made: Cell::new(0) };
    let repaired = row_after(
        alloc,
        &newer,
        1,
        &older,
        &old,
        &changed,
        &back,
        &team,
        &mut Workspace::new(),
    );
    match repaired {
        Ok(_row) => Ok((changed.len(), team.made.get())),
        Err(_) => Err(Refusal::OutOfMemory),
    }
}

/// The same of the ladder, in which one arc gets longer, nine rungs before the end.
fn repaired_near_the_end(alloc: Global) -> Result<(usize, usize), Refusal> {
    let before = SharedNetwork::of(alloc, &ladder(alloc)?)?;
    let group = Group::one(Command::Set {
        arc: 19_961,
        length: 2,
    });
    let after = before.after(alloc, from_ref(&group))?;
    repaired(alloc, &before, &after)
}

/// The row takes four requests a rung, and the distance does for ten rungs. The led search is given two bounds a rung. A repair takes requests where
/// the row changes. Refused is a search that goes on behind its target, a led one that does up to twice the distance, and a repair that makes the row
/// anew or takes all nodes for changed.
#[test]
fn searches_settle_what_they_have_to(rt: HostRuntime) {
    let (whole, near, given) = counted(rt.alloc()).expect(&rt, "memory");
    assert!(rt; whole > 19_000 && near < 100, "{whole} {near}");
    assert!(rt; given < 5_100, "{given}");
    let (changed, made) = repaired_near_the_end(rt.alloc()).expect(&rt, "memory");
    assert!(rt; changed == 1 && made < 100, "{changed} {made}");
}

/// How many bounds are given to a search for the node in the middle of the square.
fn given_in_square(alloc: Global) -> Result<u32, Refusal> {
    let groups = Snapshot::build(alloc, &SharedNetwork::of(alloc, &square(alloc)?)?, 128)?;
    given_for(alloc, &groups, 1_275)
}

/// Where arcs are about as long as each other, a led search takes nodes in the order of their keys: Dijkstra's algorithm lowers 1,433 values before it settles
/// the middle of the square. Refused is a ring with too few lists for the keys, which lowers 3,800.
#[test]
fn led_searches_keep_the_order(rt: HostRuntime) {
    let given = given_in_square(rt.alloc()).expect(&rt, "memory");
    assert!(rt; given < 1_600, "{given}");
}
