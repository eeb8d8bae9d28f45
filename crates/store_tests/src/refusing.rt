// Calls of the disk that fail once, at each place of an opening, a commit and a checkpoint. The failure is told, and what is tried again on
// the store that is opened then gives what it would have given at first.
ghost use Rattle.std.specs.Prelude.{IfErr, IfOk};
ghost use Rattle.store.specs.Opening.{MayRefuseToOpen};
ghost use Rattle.store.specs.State.{HasTold, told};

use crate::living::{ENDS_IN_PARTS, LAYING, LENGTHS, WORDS_IN_PARTS};
use crate::steps::Step::{Checkpoint, Commit, Part};
use crate::steps::{Life, Step, Told, new_disk, stepped, take_steps, told};
use crate::stores::opened;
use disk::{Disk, FailOnce, MemDisk};
use roadnet::Refusal;
use std::alloc::Global;
use store::{Store, open};

// Opens the disk, and once more where it failed. The second opening gives what the first would have: both are judged by the content as it
// was at first.
fn opened_again<D: Disk>(alloc: Global, disk: D) -> Result<Store<D>, (Refusal, D)>
    ensures told { D.honest disk → IfOk result (λ store. HasTold (D.content disk) (told store)) }
    ensures judged { D.honest disk → IfErr result (λ refused. MayRefuseToOpen (D.content disk) refused.0) }
{
    match open(alloc, disk) {
        Ok(store) => Ok(store),
        Err((Refusal::Device, disk)) => open(alloc, disk),
        Err(refused) => Err(refused),
    }
}

// The steps by which a store is prepared, those that are tried on it, how many calls of the disk an opening and they make, and what the store tells in the end.
struct Work {
    life: Life,
    before: &'static [Step],
    steps: &'static [Step],
    calls: u64,
    stands: Told,
}

// What the steps are refused with, if they are. The store then tells what it told, but is broken, and refuses them again.
fn refusal_of<D: Disk>(
    alloc: Global,
    store: &mut Store<D>,
    work: &Work,
) -> Result<Option<Refusal>, Refusal> {
    let (version, unchecked, _) = told(alloc, &work.life, store)?;
    let Err(refusal) = take_steps(alloc, &work.life, store, work.steps) else {
        return Ok(None);
    };
    let tells = told(alloc, &work.life, store);
    let again = take_steps(alloc, &work.life, store, work.steps);
    if tells != Ok((version, unchecked, false)) || again != Err(Refusal::Broken) {
        return Err(Refusal::NotYet);
    }
    Ok(Some(refusal))
}

// Opens the disk, of which the k-th call fails, and takes the steps. Answers what either was refused with, and the disk.
fn tried(alloc: Global, work: &Work, k: u64) -> Result<(Option<Refusal>, MemDisk), Refusal> {
    let disk = stepped(alloc, &work.life, new_disk(alloc, &work.life)?, work.before)?;
    match open(alloc, FailOnce::new(disk, k)) {
        Ok(store) => {
            let mut store = store;
            let refusal = refusal_of(alloc, &mut store, work);
            let disk = store.close().into_inner();
            Ok((refusal?, disk))
        }
        Err((refusal, disk)) => Ok((Some(refusal), disk.into_inner())),
    }
}

// Takes the steps again on the store that is opened, but for a commit that is there: of that only the last sync failed.
fn tried_again(alloc: Global, work: &Work, disk: MemDisk) -> Result<MemDisk, Refusal> {
    let mut store = opened(alloc, disk)?;
    let (version, _, _) = work.stands;
    let is_there = store.version() == version && matches!(work.steps, [Commit]);
    let steps: &[Step] = if is_there { &[] } else { work.steps };
    let taken = take_steps(alloc, &work.life, &mut store, steps);
    let disk = store.close();
    taken?;
    Ok(disk)
}

// What was refused while the k-th call failed, and what stands in the end.
fn in_the_end(alloc: Global, work: &Work, k: u64) -> Result<(Option<Refusal>, Told), Refusal> {
    let (refusal, disk) = tried(alloc, work, k)?;
    let disk = match refusal {
        Some(_) => tried_again(alloc, work, disk)?,
        None => disk,
    };
    let Ok(store) = opened_again(alloc, disk) else {
        return Err(Refusal::NotYet);
    };
    Ok((refusal, told(alloc, &work.life, &store)?))
}

// The page that the commit writes is open, and so is the slot that the checkpoint writes, of words and ends.
// Opening makes nine calls, one more where there are ends, and one more for a page that is unchecked. The commit reads the gate, closes it, syncs, writes the body, syncs, opens
// the gate and syncs; the checkpoint does so with the words and the head. The first part reads the gate, which is closed, writes words and syncs;
// the second writes and syncs; the third writes words and the head, syncs, opens the gate and syncs.
const WORKS: [Work; 4] = [
    Work {
        life: LENGTHS,
        before: &[Commit, Commit, Checkpoint],
        steps: &[Commit],
        calls: 16,
        stands: (3, 1, true),
    },
    Work {
        life: LAYING,
        before: &[Commit, Commit, Checkpoint, Commit],
        steps: &[Checkpoint],
        calls: 19,
        stands: (3, 0, true),
    },
    Work {
        life: WORDS_IN_PARTS,
        before: &[Commit],
        steps: &[Part(1), Part(1), Part(1)],
        calls: 20,
        stands: (1, 0, true),
    },
    Work {
        life: ENDS_IN_PARTS,
        before: &[Commit],
        steps: &[Part(1), Part(2), Part(2)],
        calls: 21,
        stands: (1, 0, true),
    },
];

#[test]
fn works_are_tried_again(rt: HostRuntime) {
    for (i, work) in WORKS.iter().enumerate() {
        for k in 1..=23 {
            let refusal = if k <= work.calls {
                Some(Refusal::Device)
            } else {
                None
            };
            let found = in_the_end(rt.alloc(), work, k);
            assert!(rt; found == Ok((refusal, work.stands)), "work {i}, call {k}");
        }
    }
}
