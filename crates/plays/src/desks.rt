// A desk is started, called line by line, and closed. What is answered is told, and what the gate noted and the desk left.
ghost use Rattle.std.specs.Prelude.{◌≡◌, ◌≤◌, true, IfOk, IfSome};
ghost use Rattle.std.specs.Option.{ForSome};
ghost use Rattle.rows.specs.Kept.{IsWidth};
ghost use Rattle.store.specs.State.{CameTidy, is_calm};
ghost use Rattle.desk.specs.Openings.{IsNewDesk};

use crate::moves::{caller_of, play_lines};
use blocks::{Given, Head};
use desk::{Closed, Desk, History, Naming, Served, Setup};
use disk::Disk;
use roadnet::Refusal;
use stages::{Board, CaseRuntime, Kept, OfCase, Watch, gate_of, left_by, setup_of, store_of};
use std::alloc::Global;
use std::io::Write;
use std::marker::Brand;
use std::sync::Wait;
use store::Store;

/// The lines that are played before the desk is closed, and behind that: the last text, or the last two under `outlived`.
fn lines_of<'t>(given: Given<'_, 't>) -> (&'t [u8], &'t [u8]) {
    let last = given.texts.len().saturating_sub(1);
    if given.head.has("outlived") {
        (given.text(last.saturating_sub(1)), given.text(last))
    } else {
        (given.text(last), &[])
    }
}

/// Closes a desk, or lets it go, as the head says: then it leaves nothing.
fn end<S: Served>(desk: Desk<S>, head: Head<'_>) -> Result<Option<Closed<S::Disk>>, Refusal>
    ensures origin { IfOk result (λ left. IfSome left (λ closed. closed.whole.origin ≡ S.Naming.origin)) }
{
    if head.has("let-go") {
        drop(desk);
        return Ok(None);
    }
    Ok(Some(desk.close()?))
}

/// A desk is started, called, ended, and called by a handle that outlives it. The answers are added.
fn call_desk<N: Naming + Send + Sync + 'static, R: CaseRuntime>(
    rt: R,
    alloc: Global,
    history: History,
    store: Store<Kept>,
    gate: Watch<R>,
    setup: Setup,
    board: &Board,
    given: Given<'_, '_>,
    out: &mut Vec<u8>,
) -> Result<Option<Closed<Kept>>, Refusal>
    requires calm { is_calm store ≡ true }
    requires width { ForSome setup.delta IsWidth }
    requires workers { (1 ≤ setup.workers) × (setup.workers ≤ 64) }
    requires new { IsNewDesk N.origin history store }
    requires came_tidy { N.came_tidy → CameTidy ⟦<Kept as Disk>⟧.honest ⟦<Kept as Disk>⟧.content store.given }
{
    let desk: Desk<OfCase<N, R>> = Desk::start(rt, alloc, history, store, gate, setup)?;
    let handle = desk.handle().again()?;
    let mut caller = caller_of::<N>(alloc);
    let (before, behind) = lines_of(given);
    let told = play_lines(&rt, alloc, &handle, board, before, &mut caller, out);
    let left = end(desk, given.head)?;
    told?;
    play_lines(&rt, alloc, &handle, board, behind, &mut caller, out)?;
    if let Some(closed) = &left
        && given.head.has("confirmed")
    {
        let confirmed = caller.confirmed(closed);
        writeln!(out, "confirmed {confirmed}").or(Err(Refusal::OutOfMemory))?;
    }
    Ok(left)
}

/// Adds a list of numbers with its name.
fn put_numbers(name: &str, numbers: &[u64], out: &mut Vec<u8>) -> Result<(), Refusal> {
    write!(out, "{name} {numbers:?}").or(Err(Refusal::OutOfMemory))
}

/// Adds what the gate noted until the threads had ended.
fn put_noted<R: Wait>(
    rt: &R,
    alloc: Global,
    board: &Board,
    out: &mut Vec<u8>,
) -> Result<(), Refusal> {
    put_numbers("flushes", &board.flush.numbers(rt, alloc)?, out)?;
    put_numbers(", steps", &board.step.numbers(rt, alloc)?, out)?;
    let late = if board.has_expired() {
        ", held too long"
    } else {
        ""
    };
    let ended = if board.given_up() > 0 {
        ", the builder gave up"
    } else {
        ""
    };
    writeln!(out, "{late}{ended}").or(Err(Refusal::OutOfMemory))
}

/// Plays a case once.
fn play_once<R: CaseRuntime>(
    rt: R,
    alloc: Global,
    given: Given<'_, '_>,
    out: &mut Vec<u8>,
) -> Result<(), Refusal> {
    let store = store_of(alloc, given)?;
    let history = History::new(store.network(), store.version());
    let (gate, board) = gate_of(rt, alloc, given.head)?;
    let setup = setup_of(given.head);
    let Some(closed) = call_desk::<Brand, _>(
        rt, alloc, history, store, gate, setup, &board, given, out,
    )?
    else {
        return Ok(());
    };
    if !given.head.has("brief") {
        put_noted(&rt, alloc, &board, out)?;
    }
    let left = left_by(alloc, given, closed)?;
    let other = if left.is_right {
        ""
    } else {
        ", which is another network"
    };
    writeln!(
        out,
        "left {}, shown {}, kept {}{other}",
        left.groups, left.shown, left.version
    )
    .or(Err(Refusal::OutOfMemory))
}

/// Plays a case, and again while a call was late.
pub(crate) fn play<R: CaseRuntime>(
    rt: R,
    alloc: Global,
    given: Given<'_, '_>,
    out: &mut Vec<u8>,
) -> Result<(), Refusal> {
    for _ in 0..given.head.count_of("rounds").unwrap_or(1) {
        out.clear();
        play_once(rt, alloc, given, out)?;
        if !out.windows(5).any(|bytes| bytes == b"late\n".as_slice()) {
            break;
        }
    }
    Ok(())
}
