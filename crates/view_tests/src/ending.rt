//! Searches that end where their answers are known, in a line of 10,000 nodes. They relax each node by itself, so no team counts them: a near answer takes
//! a fraction of the time of one that is as far as the line goes.

use deltastep::Workspace;
use fixtures::arc;
use relax::Solo;
use roadnet::{Network, Refusal};
use rows::{Asker, Near, View};
use shared_network::SharedNetwork;
use std::alloc::{AllocError, Global};
use std::time::{Clock, Duration, Instant};

/// 10,000 nodes in a line, by arcs of length 1. The tenth is a landmark, and the last.
fn line(alloc: Global) -> Result<Network, Refusal> {
    let mut arcs = Vec::new(alloc);
    for node in 1..10_000 {
        arcs.push(arc(node, node + 1, 1)).map_err(AllocError::from)?;
    }
    Network::new(alloc, 10_000, arcs, &[10, 10_000])
}

/// The least time that eight answers to a question take, if they are given and there is a clock.
fn least_time<R: Clock>(
    rt: &R,
    alloc: Global,
    asker: &Asker<'_>,
    near: Near,
    workspace: &mut Workspace,
) -> Option<Duration> {
    let mut least = Duration::MAX;
    for _ in 0..8 {
        let start = Instant::now(rt).ok()?;
        let _told = asker.near(alloc, near, None, &Solo, workspace).ok()?;
        least = least.min(start.elapsed(rt).ok()?);
    }
    Some(least)
}

/// Questions with an answer of ten nodes, or one landmark, and the same with one to the end of the line.
const QUESTIONS: [(Near, Near); 3] = [
    (
        Near::Reach {
            source: 1,
            limit: 9,
        },
        Near::Reach {
            source: 1,
            limit: 9_999,
        },
    ),
    (
        Near::Reached {
            target: 9_999,
            limit: 9,
        },
        Near::Reached {
            target: 9_999,
            limit: 9_999,
        },
    ),
    (
        Near::Nearest {
            source: 1,
            count: 1,
        },
        Near::Nearest {
            source: 1,
            count: 2,
        },
    ),
];

/// For how many of the questions the near answer takes less than an eighth of the time of the other.
fn ending_early<R: Clock>(rt: &R, alloc: Global, asker: &Asker<'_>) -> usize {
    let mut workspace = Workspace::new();
    let mut early: usize = 0;
    for (near, far) in QUESTIONS {
        let near = least_time(rt, alloc, asker, near, &mut workspace);
        let far = least_time(rt, alloc, asker, far, &mut workspace);
        if let (Some(near), Some(far)) = (near, far)
            && near.saturating_mul(8) < far
        {
            early = early.saturating_add(1);
        }
    }
    early
}

/// The same of a view of the line, with its arcs turned round.
fn ending_early_in_a_line<R: Clock>(rt: &R, alloc: Global) -> Result<usize, Refusal> {
    let view = View::build(
        alloc,
        1,
        SharedNetwork::of(alloc, &line(alloc)?)?,
        None,
        &Solo,
    )?;
    let turned = view.asker().turn(alloc)?;
    Ok(ending_early(rt, alloc, &view.asker().with_turned(&turned)))
}

/// Refused is a search that goes on with enough.
#[test]
fn searches_end_early(rt: HostRuntime) {
    let early = ending_early_in_a_line(&rt, rt.alloc()).expect(&rt, "memory");
    assert!(rt; early == 3, "{early}");
}
