ghost use Rattle.std.specs.Prelude.{◌≡◌, ◌+◌, ◌≤◌, ◌<◌, ◌^◌, length, IsSome, IfOk, IfSome, All};
ghost use Rattle.std.specs.Bool.{OnTrue};
ghost use Rattle.relax.specs.Values.{value_at, value_or};

use fixtures::six;
use relax::{CHUNK, Crew, Solo, Team, Tentative};
use roadnet::Refusal;
use shared_network::SharedNetwork;
use snapshot::{Part, Snapshot};
use std::alloc::Global;

/// Whether each of the nodes is there and has a value below 2^56.
fn are_ready(snapshot: &Snapshot, tentative: &Tentative, nodes: &[u32]) -> bool
    requires { length tentative.now ≡ snapshot.now.nodes + 1 }
    ensures nodes { OnTrue result (All (λ u. (1 ≤ u) × (u ≤ snapshot.now.nodes)) nodes.now) }
    ensures values { OnTrue result (All (λ u. IsSome (value_at tentative.now u) × (value_or 0 tentative.now u < 2 ^ 56)) nodes.now) }
{
    for &node in nodes {
        if !snapshot.has_node(node) {
            return false;
        }
        let Some(value) = tentative.get(node) else {
            return false;
        };
        if value >= 1 << 56 {
            return false;
        }
    }
    true
}

/// Tentative values of these nodes, or nothing where a node is not there or a value is too great.
fn given(
    alloc: Global,
    snapshot: &Snapshot,
    values: &[(u32, u64)],
) -> Result<Option<Tentative>, Refusal>
    ensures { IfOk result (λ made. IfSome made (λ tentative. length tentative ≡ snapshot.now.nodes + 1)) }
{
    let mut tentative = Tentative::new(alloc, snapshot.nodes())?;
    for &(node, value) in values {
        if !snapshot.has_node(node) || value >= 1 << 56 {
            return Ok(None);
        }
        tentative.set(node, value);
    }
    Ok(Some(tentative))
}

/// The requests that a team makes of these nodes with these values, or no list where its conditions don't hold.
fn requests<T: Team>(
    alloc: Global,
    team: &T,
    nodes: &[u32],
    values: &[(u32, u64)],
    part: Part,
) -> Result<Option<Vec<(u32, u64)>>, Refusal> {
    let snapshot = Snapshot::build(alloc, &SharedNetwork::of(alloc, &six(alloc)?)?, 5)?;
    let Some(tentative) = given(alloc, &snapshot, values)? else {
        return Ok(None);
    };
    if !are_ready(&snapshot, &tentative, nodes) {
        return Ok(None);
    }
    Ok(Some(team.requests(alloc, &snapshot, nodes, &tentative, part)?))
}

/// Whether the list is there, and just this one.
fn is(list: &Option<Vec<(u32, u64)>>, want: &[(u32, u64)]) -> bool {
    let Some(list) = list else {
        return false;
    };
    let mut same = list.len() == want.len();
    for (request, wanted) in list.iter().zip(want) {
        same = same && request.0 == wanted.0 && request.1 == wanted.1;
    }
    same
}

/// Whether a team makes of the four nodes that are reached from node 3 these requests, and none of no nodes.
fn requests_as_told<T: Team>(alloc: Global, team: &T) -> Result<bool, Refusal> {
    let nodes = [3, 5, 2, 4];
    let values = [(3, 10), (5, 10), (2, 10), (4, 12)];
    let light = requests(alloc, team, &nodes, &values, Part::Light)?;
    let heavy = requests(alloc, team, &nodes, &values, Part::Heavy)?;
    let none = requests(alloc, team, &[], &values, Part::Light)?;
    Ok(
        is(&light, &[(5, 10), (2, 10), (4, 12), (3, 12), (6, 15)])
            && is(&heavy, &[(6, 30)])
            && is(&none, &[]),
    )
}

/// The light requests and the heavy one are the same by one worker and by crews with chunks of any length.
#[test]
fn requests_of_teams(rt: HostRuntime) {
    assert!(rt; requests_as_told(rt.alloc(), &Solo).expect(&rt, "memory"));
    for &chunk in &[1, 3, CHUNK] {
        let crew = Crew::new(&rt, chunk);
        assert!(rt;
            requests_as_told(rt.alloc(), &crew).expect(&rt, "memory"),
            "{chunk}"
        );
    }
}
