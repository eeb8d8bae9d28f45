//! Which rows a cache keeps, and growths that are refused.

ghost use Rattle.std.specs.Prelude.{◌≤◌};
ghost use Rattle.kept_rows.specs.Cached.{HasRowsOf, KeepsOthers};

use fixtures::{six, six_with};
use relax::Solo;
use roadnet::{OutOfMemory, Refusal};
use rows::{Asker, Query, Reply, RowCache, View, answer_plain};
use shared_network::SharedNetwork;
use snapshot::Snapshot;
use std::alloc::Global;
use std::thread::Threads;

/// How many rows a cache keeps once this source was asked.
fn kept_after<R: Threads>(
    rt: &R,
    alloc: Global,
    asker: &Asker<'_>,
    cache: &mut RowCache,
    source: u64,
) -> Result<usize, Refusal>
    requires { HasRowsOf asker.now.version asker.now.network cache.old }
    ensures { HasRowsOf asker.now.version asker.now.network cache.new }
{
    let _reply = asker.ask(rt, alloc, cache, source, 6)?;
    Ok(cache.len())
}

/// The same of nodes 1, 2, 1, 1, 2 and 1 in turn.
fn kept_in_turn<R: Threads>(
    rt: &R,
    alloc: Global,
    asker: &Asker<'_>,
    cache: &mut RowCache,
) -> Result<[usize; 6], Refusal>
    requires { HasRowsOf asker.now.version asker.now.network cache.old }
{
    let first = kept_after(rt, alloc, asker, cache, 1)?;
    let other = kept_after(rt, alloc, asker, cache, 2)?;
    let again = kept_after(rt, alloc, asker, cache, 1)?;
    let twice = kept_after(rt, alloc, asker, cache, 1)?;
    let then = kept_after(rt, alloc, asker, cache, 2)?;
    let last = kept_after(rt, alloc, asker, cache, 1)?;
    Ok([first, other, again, twice, then, last])
}

/// The same in the six-node network, by a new cache of one row.
fn kept_of_six<R: Threads>(rt: &R, alloc: Global) -> Result<[usize; 6], Refusal> {
    let network = SharedNetwork::of(alloc, &six(alloc)?)?;
    let groups = Snapshot::build(alloc, &network, 3)?;
    let asker = Asker::of(0, &network, &groups);
    let mut cache = RowCache::new(alloc, 1);
    kept_in_turn(rt, alloc, &asker, &mut cache)
}

#[test]
fn a_row_is_kept_of_who_is_asked_twice_in_a_row(rt: HostRuntime) {
    let kept = kept_of_six(&rt, rt.alloc()).expect(&rt, "memory");
    assert!(rt; kept == [0, 0, 0, 1, 1, 1]);
}

/// The first place whose pair got another reply than by plain relaxation.
fn first_other(
    alloc: Global,
    view: &View,
    pairs: &[(u64, u64)],
    replies: &[Reply],
) -> Result<Option<usize>, OutOfMemory> {
    for at in 0..pairs.len() {
        let (source, target) = pairs[at];
        let plain = answer_plain(alloc, view.network(), &Query::Dist { source, target })?;
        if replies.get(at) != Some(&plain) {
            return Ok(Some(at));
        }
    }
    Ok(None)
}

/// The same of a batch by a cache.
fn asked_of<R: Threads>(
    rt: &R,
    alloc: Global,
    view: &View,
    pairs: &[(u64, u64)],
    cache: &mut RowCache,
) -> Result<Option<usize>, OutOfMemory>
    requires { HasRowsOf view.now.version view.now.network cache.old }
{
    let replies = view.pinned(cache).batch(rt, alloc, pairs)?;
    first_other(alloc, view, pairs, &replies)
}

/// Whether a batch by a cache for so many rows, with that of node 2, is answered right, how many rows it leaves, and whether that of node 2 is one.
fn asked_together<R: Threads>(
    rt: &R,
    alloc: Global,
    view: &View,
    pairs: &[(u64, u64)],
    capacity: u32,
) -> Result<(bool, usize, bool), OutOfMemory>
    requires { (1 ≤ capacity) × (capacity ≤ 64) }
{
    let mut cache = RowCache::new(alloc, capacity);
    let _reply = ask(rt, alloc, view, &mut cache, 2, 6)?;
    let other = asked_of(rt, alloc, view, pairs, &mut cache)?;
    Ok((other.is_none(), cache.len(), cache.has(view.version(), 2)))
}

/// A view of the six-node network with these landmarks.
fn view_of_six(alloc: Global, landmarks: &[u32]) -> Result<View, Refusal> {
    Ok(View::build(
        alloc,
        1,
        SharedNetwork::of(alloc, &six_with(alloc, landmarks)?)?,
        None,
        &Solo,
    )?)
}

/// Pairs, and how many rows their batch leaves in a cache of 16, with that of node 2. Rows are made of sources that have none, and kept; where the targets
/// are fewer, rows are made of these, and none is kept.
const SIDES: [([(u64, u64); 3], usize); 5] = [
    ([(1, 6), (1, 4), (1, 2)], 2),
    ([(1, 6), (3, 4), (1, 2)], 3),
    ([(1, 6), (2, 6), (3, 6)], 1),
    ([(4, 6), (7, 6), (4, 0)], 2),
    ([(1, 6), (2, 6), (1, 6)], 2),
];

/// A cache for one row is left with that of the greatest source: pairs of a source follow each other, so its row is made once. Refused is a body that makes
/// rows of the other side, or that takes pairs in their order.
#[test]
fn rows_of_a_batch(rt: HostRuntime) {
    let view = view_of_six(rt.alloc(), &[]).expect(&rt, "memory");
    for (pairs, rows) in SIDES {
        let told = asked_together(&rt, rt.alloc(), &view, &pairs, 16).expect(&rt, "memory");
        assert!(rt; told == (true, rows, true), "{told:?}");
    }
    let pairs = [(1, 6), (2, 6), (1, 4)];
    let told = asked_together(&rt, rt.alloc(), &view, &pairs, 1).expect(&rt, "memory");
    assert!(rt; told == (true, 1, true), "{told:?}");
}

/// The reply to `Dist` by a view and a cache.
fn ask<R: Threads>(
    rt: &R,
    alloc: Global,
    view: &View,
    cache: &mut RowCache,
    source: u64,
    target: u64,
) -> Result<Reply, OutOfMemory>
    requires { HasRowsOf view.now.version view.now.network cache.old }
    ensures kept { HasRowsOf view.now.version view.now.network cache.new }
    ensures others { KeepsOthers view.now.version cache.old cache.new }
{
    let mut pinned = view.pinned(cache);
    pinned.dist(rt, alloc, source, target)
}

/// The reply to `Dist` for node 6, none where memory was wanting for a row, and how many rows the cache keeps then.
fn ask_and_count<R: Threads>(
    rt: &R,
    alloc: Global,
    view: &View,
    cache: &mut RowCache,
    source: u64,
) -> (Option<Reply>, usize)
    requires { HasRowsOf view.now.version view.now.network cache.old }
    ensures kept { HasRowsOf view.now.version view.now.network cache.new }
{
    let reply = ask(rt, alloc, view, cache, source, 6).ok();
    (reply, cache.len())
}

/// The same of nodes 1, 2 and 1 again, and a bound.
fn ask_three<R: Threads>(
    rt: &R,
    alloc: Global,
    view: &View,
) -> ([(Option<Reply>, usize); 3], Reply) {
    let mut cache = RowCache::new(alloc, 16);
    let told = [
        ask_and_count(rt, alloc, view, &mut cache, 1),
        ask_and_count(rt, alloc, view, &mut cache, 2),
        ask_and_count(rt, alloc, view, &mut cache, 1),
    ];
    (told, view.pinned(&mut cache).lower(5, 6))
}

const ONE: Option<Reply> = Some(Reply::Length(15));

const TWO: Option<Reply> = Some(Reply::Length(5));

/// What is told where memory is wanting nowhere, or for one row.
const WANTED: [[(Option<Reply>, usize); 3]; 5] = [
    [(ONE, 1), (TWO, 2), (ONE, 2)],
    [(ONE, 1), (TWO, 1), (ONE, 1)],
    [(ONE, 1), (None, 1), (ONE, 1)],
    [(ONE, 0), (TWO, 1), (ONE, 2)],
    [(None, 0), (TWO, 1), (ONE, 2)],
];

/// Where memory is wanting for a row that is answered, and what the cache keeps stays. A row that is kept answers without memory, and so do
/// bounds. To be run with each allocation failing in turn.
#[test]
fn allocations_fail_in_turn(rt: HostRuntime) {
    let Ok(view) = view_of_six(rt.alloc(), &[3]) else {
        return;
    };
    let (told, least) = ask_three(&rt, rt.alloc(), &view);
    assert!(rt; WANTED.contains(&told), "{told:?}");
    assert!(rt; least == Reply::AtLeast(5));
}
