//! Worked rows, by plain relaxation and by delta-stepping.

use deltastep::{Distances, RowError, plain_row, row};
use fixtures::{chain, fan, network};
use relax::{CHUNK, Crew, Solo, Team};
use roadnet::{Command, Network, Refusal};
use shared_network::SharedNetwork;
use snapshot::Snapshot;
use std::alloc::Global;

/// Arcs by tail, head and length.
type Arcs = &'static [(u32, u32, u32)];

const SIX: Arcs = &[
    (1, 2, 17),
    (1, 3, 10),
    (2, 4, 2),
    (3, 5, 0),
    (4, 3, 0),
    (4, 6, 3),
    (5, 2, 0),
    (5, 6, 20),
];

const TWO: Arcs = &[(1, 2, 5), (1, 2, 3), (1, 1, 0)];

const FOUR: Arcs = &[(1, 2, 2147483647), (2, 3, 2147483647), (3, 4, 2147483647)];

/// How many nodes, the arcs, which of them are closed, a node, and its row from node 1 on. A distance of `NONE` stands for no walk.
type Worked = (u32, Arcs, &'static [u64], u32, &'static [u64]);

const NONE: u64 = u64::MAX;

const ROWS: [Worked; 8] = [
    (6, SIX, &[], 1, &[0, 10, 10, 12, 10, 15]),
    (6, SIX, &[7], 1, &[0, 17, 10, 19, 10, 22]),
    (6, SIX, &[], 3, &[NONE, 0, 0, 2, 0, 5]),
    (6, SIX, &[], 6, &[NONE, NONE, NONE, NONE, NONE, 0]),
    (4, FOUR, &[], 1, &[0, 2147483647, 4294967294, 6442450941]),
    (2, TWO, &[], 1, &[0, 3]),
    (2, TWO, &[2], 1, &[0, 5]),
    (1, &[], &[], 1, &[0]),
];

/// The row of a node by plain relaxation.
fn plain_of(alloc: Global, network: &SharedNetwork, source: u32) -> Result<Distances, Refusal> {
    if !network.has_node(u64::from(source)) {
        return Err(Refusal::NoSuchNode);
    }
    match plain_row(alloc, network, source) {
        Ok(row) => Ok(row),
        Err(RowError::OutOfMemory) => Err(Refusal::OutOfMemory),
    }
}

/// The row of a node under this delta, by this team.
fn row_by<T: Team>(
    alloc: Global,
    network: &SharedNetwork,
    source: u32,
    delta: u32,
    team: &T,
) -> Result<Distances, Refusal> {
    if delta == 0 || delta > 2147483647 {
        return Err(Refusal::NumberRange);
    }
    let snapshot = Snapshot::build(alloc, network, delta)?;
    if !snapshot.has_node(source) {
        return Err(Refusal::NoSuchNode);
    }
    match row(alloc, &snapshot, source, team) {
        Ok(row) => Ok(row),
        Err(RowError::OutOfMemory) => Err(Refusal::OutOfMemory),
    }
}

/// Whether the row has just these distances, from node 1 on.
fn is(row: &Distances, want: &[u64]) -> bool {
    let mut node = 0u64;
    let mut same = row.get(0).is_none();
    for &distance in want {
        node = node.saturating_add(1);
        same = same && row.get(node).unwrap_or(NONE) == distance;
    }
    same && row.get(node.saturating_add(1)).is_none()
}

/// The network of a worked row.
fn network_of(
    alloc: Global,
    nodes: u32,
    arcs: Arcs,
    closed: &[u64],
) -> Result<SharedNetwork, Refusal> {
    let mut network = network(alloc, nodes, arcs, &[])?;
    for &arc in closed {
        network.apply(Command::Close { arc })?;
    }
    Ok(SharedNetwork::of(alloc, &network)?)
}

/// Whether a node has this row by plain relaxation, and under each delta from the least to the greatest.
fn has_row(alloc: Global, worked: Worked) -> Result<bool, Refusal> {
    let (nodes, arcs, closed, source, want) = worked;
    let network = network_of(alloc, nodes, arcs, closed)?;
    let mut same = is(&plain_of(alloc, &network, source)?, want);
    for &delta in &[1, 5, 2147483647] {
        same = same && is(&row_by(alloc, &network, source, delta, &Solo)?, want);
    }
    Ok(same)
}

#[test]
fn worked_rows(rt: HostRuntime) {
    for (i, &worked) in ROWS.iter().enumerate() {
        assert!(rt;
            has_row(rt.alloc(), worked).expect(&rt, "memory"),
            "row {i}"
        );
    }
}

/// Whether two rows agree on the first 100,000 nodes.
fn agree(one: &Distances, other: &Distances) -> bool {
    let mut same = true;
    for node in 1..100_001u64 {
        same = same && one.get(node) == other.get(node);
    }
    same
}

/// Whether the row of node 1 by one worker, and by this team, is the plain one.
fn is_plain_by<T: Team>(alloc: Global, network: &Network, team: &T) -> Result<bool, Refusal> {
    let network = &SharedNetwork::of(alloc, network)?;
    let plain = plain_of(alloc, network, 1)?;
    let alone = agree(&row_by(alloc, network, 1, 3, &Solo)?, &plain);
    Ok(alone && agree(&row_by(alloc, network, 1, 3, team)?, &plain))
}

/// The same of a chain and of a fan.
fn are_plain_by<T: Team>(alloc: Global, team: &T) -> Result<bool, Refusal> {
    Ok(is_plain_by(alloc, &chain(alloc)?, team)? && is_plain_by(alloc, &fan(alloc)?, team)?)
}

#[test]
fn rows_of_a_chain_and_a_fan(rt: HostRuntime) {
    let crew = Crew::new(&rt, CHUNK);
    assert!(rt; are_plain_by(rt.alloc(), &crew).expect(&rt, "memory"));
}

#[test]
fn the_error_is_printed(rt: HostRuntime) {
    let error = RowError::OutOfMemory;
    let printed = format!(in rt.alloc(); "{error}").expect(&rt, "memory");
    assert!(rt; printed.as_str() == "11 OutOfMemory");
}
