// Commits and checkpoints in parts that are cut at each of their writes and syncs, and stopped.
use crate::living::{CLOSING, DETOUR, ENDS_IN_PARTS, LAID, WORDS_IN_PARTS};
use crate::steps::Act::{Cut, Lived};
use crate::steps::Step::{Commit, Look, Part};
use crate::steps::{
    GOING, Life, Row, Step, first_other_act, fused, new_disk, stopped, take_step, told,
};
use crate::stores::opened;
use disk::{Disk, MemDisk, Pick};
use roadnet::Refusal;
use std::alloc::Global;
use store::Store;

// A commit that is refused, and a further one; and one that is done, behind which the fuse has blown.
const REFUSED: [Row; 2] = [
    (Commit, Err(Refusal::Device), (0, 0, false)),
    (Commit, Err(Refusal::Broken), (0, 0, false)),
];

const DONE: [Row; 2] = [
    (Commit, Ok(1), (1, 1, true)),
    (Commit, Err(Refusal::Device), (1, 1, false)),
];

// What stands then: nothing of the group, or the whole.
const ABSENT: [Row; 1] = [(Look, Ok(0), (0, 0, true))];

const WHOLE: [Row; 1] = [(Look, Ok(1), (1, 1, true))];

const PICKS: [Pick; 4] = [Pick::Old, Pick::New, Pick::Byte(165), Pick::Byte(17)];

// How many writes and syncs pass, what is answered, and by the picks whether the group stands.
const ROWS: [(u64, &[Row], [bool; 4]); 5] = [
    (0, &REFUSED, [false; 4]),
    (1, &REFUSED, [false; 4]),
    (2, &REFUSED, [false; 4]),
    (3, &REFUSED, [false, true, true, false]),
    (4, &DONE, [true; 4]),
];

// The first number of calls by which the first group of a life is told otherwise, if there is one.
fn first_other(alloc: Global, life: &Life) -> Result<Option<u64>, Refusal> {
    for (k, rows, stand) in ROWS {
        for (&pick, &stands) in PICKS.iter().zip(&stand) {
            let left: &'static [Row] = if stands { &WHOLE } else { &ABSENT };
            let acts = [Cut(k, pick, rows), Lived(left)];
            if first_other_act(alloc, life, &acts)?.is_some() {
                return Ok(Some(k));
            }
        }
    }
    Ok(None)
}

#[test]
fn commit_is_whole_or_absent(rt: HostRuntime) {
    for (i, life) in [CLOSING, DETOUR, LAID].iter().enumerate() {
        let other = first_other(rt.alloc(), life);
        assert!(rt; other == Ok(None), "life {i}, {other:?}");
    }
}

// Three commits, with a checkpoint of the first of them in parts between them, and what each step answers. The journal is full until the checkpoint is done.
const WORDS: [(Step, u64); 6] = [
    (Commit, 1),
    (Part(1), GOING),
    (Commit, 2),
    (Part(1), GOING),
    (Part(1), 1),
    (Commit, 3),
];

const ENDS: [(Step, u64); 6] = [
    (Commit, 1),
    (Part(1), GOING),
    (Commit, 2),
    (Part(2), GOING),
    (Part(2), 1),
    (Commit, 3),
];

// Takes these steps up to one that is refused or answers otherwise. The version that was told last is noted.
fn run<D: Disk>(
    alloc: Global,
    life: &Life,
    store: &mut Store<D>,
    steps: &[(Step, u64)],
    last: &mut u64,
) -> Result<(), Refusal> {
    for &(step, wanted) in steps {
        if take_step(alloc, life, store, step)? != wanted {
            return Err(Refusal::NotYet);
        }
        *last = store.version();
    }
    Ok(())
}

// Cuts the steps at the k-th write or sync, and stops. Answers what cut them, which version was told, and what the stop leaves.
fn cut_at(
    alloc: Global,
    life: &Life,
    steps: &[(Step, u64)],
    (k, pick): (u64, Pick),
) -> Result<(Option<Refusal>, u64, MemDisk), Refusal> {
    let mut store = fused(alloc, new_disk(alloc, life)?, k)?;
    let mut last = 0;
    let cut = run(alloc, life, &mut store, steps, &mut last).err();
    Ok((cut, last, stopped(store.close().into_inner(), pick)))
}

// Whether the store on this disk has a version that was told, or may have been, and the network of that version.
fn is_left_rightly(
    alloc: Global,
    life: &Life,
    disk: MemDisk,
    (is_cut, last): (bool, u64),
) -> Result<bool, Refusal> {
    let store = opened(alloc, disk)?;
    let (version, _, _) = told(alloc, life, &store)?;
    Ok(version == last || is_cut && version == last.wrapping_add(1))
}

// The first of 23 calls at which these steps are not stopped rightly, if there is one; the 24th is not made.
fn sweep(
    alloc: Global,
    life: &Life,
    steps: &[(Step, u64)],
    pick: Pick,
) -> Result<Option<u64>, Refusal> {
    for k in 0..24 {
        let (cut, last, disk) = cut_at(alloc, life, steps, (k, pick))?;
        let is_cut = cut == Some(Refusal::Device);
        let right = is_left_rightly(alloc, life, disk, (is_cut, last))?;
        if !right || is_cut != (k < 23) || !is_cut && cut.is_some() {
            return Ok(Some(k));
        }
    }
    Ok(None)
}

const IN_PARTS: [(Life, [(Step, u64); 6]); 2] = [(WORDS_IN_PARTS, WORDS), (ENDS_IN_PARTS, ENDS)];

#[test]
fn parts_are_stopped(rt: HostRuntime) {
    for (i, (life, steps)) in IN_PARTS.iter().enumerate() {
        for pick in [Pick::Old, Pick::New, Pick::Byte(165), Pick::Byte(0)] {
            let other = sweep(rt.alloc(), life, steps, pick).expect(&rt, "memory");
            assert!(rt; other.is_none(), "life {i}, {pick:?}, call {other:?}");
        }
    }
}
