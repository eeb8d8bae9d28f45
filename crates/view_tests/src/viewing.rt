//! Replies of views and of the slow answer, as they were worked out by hand.

use deltastep::Guide;
use fixtures::{network, six_with};
use relax::Solo;
use roadnet::{Command, Group, OutOfMemory, Refusal};
use rows::{
    Landmarks, Query, Reply, RowCache, View, answer_plain, numbered_back, numbered_back_after,
};
use shared_network::SharedNetwork;
use snapshot::Leg;
use std::alloc::Global;
use std::array::from_ref;
use std::sync::Arc;
use std::thread::Threads;

/// What is asked of two numbers.
#[derive(Clone, Copy)]
enum Asked {
    Dist,
    From,
    Lower,
}

/// The query of this kind of two numbers.
fn query(asked: Asked, source: u64, target: u64) -> Query {
    match asked {
        Asked::Dist => Query::Dist { source, target },
        Asked::From => Query::From {
            landmark: source,
            target,
        },
        Asked::Lower => Query::Lower { source, target },
    }
}

/// A query, and its reply.
type Row = (Asked, u64, u64, Reply);

/// A view of the six-node network with these landmarks.
fn view_of_six(alloc: Global, landmarks: &[u32]) -> Result<View, Refusal> {
    Ok(View::build(
        alloc,
        1,
        SharedNetwork::of(alloc, &six_with(alloc, landmarks)?)?,
        None,
        &Solo,
    )?)
}

/// Whether a view and the slow answer give this reply to a query.
fn is_replied<R: Threads>(
    rt: &R,
    alloc: Global,
    view: &View,
    query: &Query,
    want: Reply,
) -> Result<bool, OutOfMemory> {
    let slow = answer_plain(alloc, view.network(), query)?;
    let mut cache = RowCache::new(alloc, 16);
    let mut pinned = view.pinned(&mut cache);
    let reply = pinned.answer(rt, alloc, query)?;
    Ok(reply == want && slow == want)
}

/// The first row that a view of the six-node network with these landmarks, or the slow answer, replies to otherwise.
fn first_other<R: Threads>(
    rt: &R,
    alloc: Global,
    landmarks: &[u32],
    rows: &[Row],
) -> Result<Option<usize>, Refusal> {
    let view = view_of_six(alloc, landmarks)?;
    for at in 0..rows.len() {
        let (asked, source, target, want) = rows[at];
        if !is_replied(rt, alloc, &view, &query(asked, source, target), want)? {
            return Ok(Some(at));
        }
    }
    Ok(None)
}

/// Of the six-node network with landmark 3.
const OF_THREE: [Row; 12] = [
    (Asked::Dist, 1, 6, Reply::Length(15)),
    (Asked::Dist, 5, 6, Reply::Length(5)),
    (Asked::Dist, 6, 1, Reply::NoWalk),
    (Asked::Dist, 4, 4, Reply::Length(0)),
    (Asked::Dist, 1, 7, Reply::Refused(Refusal::NoSuchNode)),
    (Asked::Dist, 0, 1, Reply::Refused(Refusal::NoSuchNode)),
    (Asked::From, 3, 4, Reply::Length(2)),
    (Asked::From, 3, 1, Reply::NoWalk),
    (Asked::From, 1, 4, Reply::Refused(Refusal::NotALandmark)),
    (Asked::From, 1, 7, Reply::Refused(Refusal::NoSuchNode)),
    (Asked::Lower, 5, 6, Reply::AtLeast(5)),
    (Asked::Lower, 5, 1, Reply::NoWalk),
];

/// The same with landmarks 1 and 3.
const OF_TWO: [Row; 5] = [
    (Asked::Lower, 1, 6, Reply::AtLeast(15)),
    (Asked::Lower, 5, 2, Reply::AtLeast(0)),
    (Asked::Lower, 4, 1, Reply::NoWalk),
    (Asked::Lower, 5, 6, Reply::AtLeast(5)),
    (Asked::Lower, 1, 7, Reply::Refused(Refusal::NoSuchNode)),
];

#[test]
fn replies_of_views_and_slow_ones(rt: HostRuntime) {
    assert!(rt; first_other(&rt, rt.alloc(), &[3], &OF_THREE) == Ok(None));
    assert!(rt; first_other(&rt, rt.alloc(), &[3, 1], &OF_TWO) == Ok(None));
}

/// Two landmarks, with a way of its own from each to node 5.
const WAYS: [(u32, u32, u32); 4] = [(1, 3, 2048), (3, 5, 2048), (2, 4, 2048), (4, 5, 2048)];

/// What leads a search from node 3 to node 5 at node 4, behind the other landmark, and the width of the arcs turned round.
fn led_and_turned(alloc: Global) -> Result<(u64, u32), Refusal> {
    let network = SharedNetwork::of(alloc, &network(alloc, 5, &WAYS, &[1, 2])?)?;
    let view = View::build(alloc, 1, network, None, &Solo)?;
    let turned = view.asker().turn(alloc)?;
    let guide = Landmarks::new(alloc, view.rows(), 3, 5);
    Ok((guide.bound(4), turned.delta()))
}

/// Whether a view that is given the arcs turned round shares them.
fn shares_back(alloc: Global) -> Result<bool, Refusal> {
    let view = view_of_six(alloc, &[])?;
    let Ok(back) = numbered_back(alloc, view.network()) else {
        return Err(Refusal::OutOfMemory);
    };
    let Ok(back) = Arc::new(alloc, back) else {
        return Err(Refusal::OutOfMemory);
    };
    Ok(view.with_back(back).back().is_some())
}

/// The worked network with room for one arc more.
fn roomy_six(alloc: Global) -> Result<SharedNetwork, Refusal> {
    match six_with(alloc, &[])?.with_room(9) {
        Ok(six) => Ok(SharedNetwork::of(alloc, &six)?),
        Err((refusal, _)) => Err(refusal),
    }
}

/// The legs back from node 1, to which no arc led, after arc 9 was laid from node 4 to it.
fn legs_back(alloc: Global) -> Result<(usize, Option<Leg>), Refusal> {
    let older = roomy_six(alloc)?;
    let group = Group::one(Command::Lay {
        tail: 4,
        head: 1,
        length: 3,
    });
    let newer = older.after(alloc, from_ref(&group))?;
    let back = numbered_back(alloc, &older)?;
    let back = numbered_back_after(alloc, &back, &older, &newer)?;
    let legs = back.light(1);
    Ok((legs.len(), legs.first().copied()))
}

/// Each leg back has the number of its arc.
#[test]
fn arcs_turned_round_after_one_was_laid(rt: HostRuntime) {
    let leg = Leg { head: 4, length: 9 };
    assert!(rt; legs_back(rt.alloc()).expect(&rt, "the group is admitted") == (1, Some(leg)));
}

/// More landmarks lead than the one with the greatest bound at the source. The arcs turned round have the width of the view, and are shared. Refused is a
/// body that lets one lead, that groups them by another width, or that hands none out.
#[test]
fn what_searches_of_a_view_get(rt: HostRuntime) {
    let told = led_and_turned(rt.alloc()).expect(&rt, "memory");
    assert!(rt; told == (2048, 2), "{told:?}");
    assert!(rt; shares_back(rt.alloc()).expect(&rt, "memory"));
}
