// Which writes and syncs each call of a store makes, and in which order, by the record of a disk in memory.
use crate::steps::Step::{Checkpoint, Commit, Part};
use crate::steps::{Life, Step, new_disk, stepped, stopped};
use disk::{MemDisk, Pick, Recorded};
use roadnet::{Command, Refusal};
use std::alloc::Global;
use store::inspect;

// A write of so many whole pages from one on, of a page's bytes before its gate, or of its gate; or a sync.
#[derive(Clone, Copy)]
enum Call {
    Pages(u64, u64),
    Body(u64),
    Gate(u64),
    Sync,
}

use Call::{Body, Gate, Pages, Sync};

// Where a write begins, and how many bytes it has; nothing of a sync.
fn range(call: Call) -> Option<(u64, u64)> {
    match call {
        Pages(first, count) => Some((first.wrapping_mul(4096), count.wrapping_mul(4096))),
        Body(page) => Some((page.wrapping_mul(4096), 4095)),
        Gate(page) => Some((page.wrapping_mul(4096).wrapping_add(4095), 1)),
        Sync => None,
    }
}

// The same of a call that was made.
fn range_made(call: &Recorded) -> Option<(u64, u64)> {
    match call {
        Recorded::Wrote(write) => Some((write.at as u64, write.count as u64)),
        Recorded::Synced => None,
    }
}

// The number of the first call that the disk's record has otherwise, if there is one.
fn first_other(disk: &MemDisk, calls: &[Call]) -> Option<usize> {
    let made = disk.calls();
    for (i, call) in made.iter().enumerate() {
        if calls.get(i).map(|&wanted| range(wanted)) != Some(range_made(call)) {
            return Some(i);
        }
    }
    if made.len() == calls.len() {
        None
    } else {
        Some(made.len())
    }
}

const LAY: &[Command] = &[Command::Lay {
    tail: 2,
    head: 1,
    length: 7,
}];

const LAYS: &[&[Command]] = &[LAY, LAY];

const MARKS: &[&[Command]] = &[
    &[Command::Mark { node: 1 }],
    &[Command::Unmark { node: 1 }],
    &[Command::Mark { node: 1 }],
];

/// The life of a store of so many arcs with room for so many, with these groups and so many journal pages.
fn life_of(
    arcs: usize,
    room: u64,
    groups: &'static [&'static [Command]],
    journal_pages: u32,
) -> Life {
    Life {
        arcs: Some(arcs),
        room,
        journal_pages,
        groups,
    }
}

// How many arcs there are, the room, and the groups; what was done with the store before, and what is done once it is opened again; and the calls of the disk
// from the opening on.
type Row = (
    usize,
    u64,
    &'static [&'static [Command]],
    &'static [Step],
    &'static [Step],
    &'static [Call],
);

// Of 8 arcs the heads of slots A and B are pages 2 and 4 and the journal begins at page 6, of 2,047 (three word pages) they are 6, 10 and 14, of
// none 1, 2 and 3, and of 66,000 (65 word pages) 131, 197 and 263. Of 8 arcs with room for 2,047 (three word pages and four end pages) they are 2, 10 and
// 18, with room for 10 (one of each) 2, 5 and 8; of none with room for 22,506 (22 and 45) 1, 69 and 137.
const ROWS: [Row; 18] = [
    // Opening syncs, and writes nothing.
    (8, 8, MARKS, &[], &[], &[Sync]),
    // A flush to a page whose gate reads closed: body, sync, gate, sync.
    (
        8,
        8,
        MARKS,
        &[],
        &[Commit],
        &[Sync, Body(6), Sync, Gate(6), Sync],
    ),
    // To one whose gate reads open, which a checkpoint made free: first the gate is closed, and that is synced.
    (
        8,
        8,
        MARKS,
        &[Commit, Commit, Checkpoint],
        &[Commit],
        &[Sync, Gate(6), Sync, Body(6), Sync, Gate(6), Sync],
    ),
    // A checkpoint of three word pages, whole: one write of words, the head, a sync, the gate, a sync.
    (
        2047,
        2047,
        MARKS,
        &[Commit],
        &[Checkpoint],
        &[Sync, Pages(11, 3), Body(10), Sync, Gate(10), Sync],
    ),
    // In parts of one page each part but the last syncs.
    (
        2047,
        2047,
        MARKS,
        &[Commit],
        &[Part(1), Part(1), Part(1)],
        &[
            Sync,
            Pages(11, 1),
            Sync,
            Pages(12, 1),
            Sync,
            Pages(13, 1),
            Body(10),
            Sync,
            Gate(10),
            Sync,
        ],
    ),
    // A commit between two parts makes its own calls.
    (
        2047,
        2047,
        MARKS,
        &[Commit],
        &[Part(2), Commit, Part(64)],
        &[
            Sync,
            Pages(11, 2),
            Sync,
            Body(15),
            Sync,
            Gate(15),
            Sync,
            Pages(13, 1),
            Body(10),
            Sync,
            Gate(10),
            Sync,
        ],
    ),
    // All that is left of one that is going.
    (
        2047,
        2047,
        MARKS,
        &[Commit],
        &[Part(2), Checkpoint],
        &[
            Sync,
            Pages(11, 2),
            Sync,
            Pages(13, 1),
            Body(10),
            Sync,
            Gate(10),
            Sync,
        ],
    ),
    // The other slot's gate reads open: it is closed first, and that is synced, once.
    (
        2047,
        2047,
        MARKS,
        &[Commit, Checkpoint, Commit],
        &[Checkpoint],
        &[
            Sync,
            Gate(6),
            Sync,
            Pages(7, 3),
            Body(6),
            Sync,
            Gate(6),
            Sync,
        ],
    ),
    (
        2047,
        2047,
        MARKS,
        &[Commit, Checkpoint, Commit],
        &[Part(2), Part(2)],
        &[
            Sync,
            Gate(6),
            Sync,
            Pages(7, 2),
            Sync,
            Pages(9, 1),
            Body(6),
            Sync,
            Gate(6),
            Sync,
        ],
    ),
    // With no word page the first part writes the head.
    (
        0,
        0,
        MARKS,
        &[Commit],
        &[Checkpoint],
        &[Sync, Body(2), Sync, Gate(2), Sync],
    ),
    // No write has more than 64 word pages.
    (
        66000,
        66000,
        MARKS,
        &[Commit],
        &[Checkpoint],
        &[
            Sync,
            Pages(198, 64),
            Sync,
            Pages(262, 1),
            Body(197),
            Sync,
            Gate(197),
            Sync,
        ],
    ),
    // With no page unchecked no call is made.
    (8, 8, MARKS, &[], &[Checkpoint, Part(1)], &[Sync]),
    // A flush where a slot has an end page.
    (
        8,
        10,
        LAYS,
        &[],
        &[Commit],
        &[Sync, Body(8), Sync, Gate(8), Sync],
    ),
    // Word pages and end pages are one list: all of them are written, those past the arcs too.
    (
        8,
        2047,
        MARKS,
        &[Commit],
        &[Checkpoint],
        &[Sync, Pages(11, 7), Body(10), Sync, Gate(10), Sync],
    ),
    // The second part is the last word page and the first end page, in one write.
    (
        8,
        2047,
        LAYS,
        &[Commit],
        &[Part(2), Part(2), Part(2), Part(2)],
        &[
            Sync,
            Pages(11, 2),
            Sync,
            Pages(13, 2),
            Sync,
            Pages(15, 2),
            Sync,
            Pages(17, 1),
            Body(10),
            Sync,
            Gate(10),
            Sync,
        ],
    ),
    // A commit between the word pages and the end pages.
    (
        8,
        2047,
        LAYS,
        &[Commit],
        &[Part(3), Commit, Part(64)],
        &[
            Sync,
            Pages(11, 3),
            Sync,
            Body(19),
            Sync,
            Gate(19),
            Sync,
            Pages(14, 4),
            Body(10),
            Sync,
            Gate(10),
            Sync,
        ],
    ),
    (
        8,
        2047,
        LAYS,
        &[Commit, Checkpoint, Commit],
        &[Part(4), Checkpoint],
        &[
            Sync,
            Gate(2),
            Sync,
            Pages(3, 4),
            Sync,
            Pages(7, 3),
            Body(2),
            Sync,
            Gate(2),
            Sync,
        ],
    ),
    // Nor has a write more than 64 word pages and end pages together.
    (
        0,
        22506,
        LAYS,
        &[Commit],
        &[Checkpoint],
        &[
            Sync,
            Pages(70, 64),
            Sync,
            Pages(134, 3),
            Body(69),
            Sync,
            Gate(69),
            Sync,
        ],
    ),
];

// The disk of a new store of a row, once it was worked on. All of it is synced: a stop changes nothing, and the record begins anew.
fn begun(alloc: Global, row: &Row) -> Result<MemDisk, Refusal> {
    let (arcs, room, groups, before, _, _) = *row;
    let life = life_of(arcs, room, groups, 2);
    let disk = stepped(alloc, &life, new_disk(alloc, &life)?, before)?;
    Ok(stopped(disk, Pick::Old))
}

// The number of the first call of a row that is made otherwise.
fn first_wrong(alloc: Global, row: &Row) -> Result<Option<usize>, Refusal> {
    let (arcs, room, groups, _, steps, calls) = *row;
    let life = life_of(arcs, room, groups, 2);
    let disk = stepped(alloc, &life, begun(alloc, row)?, steps)?;
    Ok(first_other(&disk, calls))
}

// Refused are bodies written twice, a gate that is written closed though it reads closed, a sync too many, one too few or one at another place, a
// part that does not sync what it wrote, more or fewer pages in a write, and a call where nothing is to be written.
#[test]
fn calls_of_a_store(rt: HostRuntime) {
    for (i, row) in ROWS.iter().enumerate() {
        assert!(rt;
            first_wrong(rt.alloc(), row).expect(&rt, "memory").is_none(),
            "row {i}"
        );
    }
}

// How many arcs there are, the room, how many journal pages, and the calls by which the store is made.
const CREATIONS: [(usize, u64, u32, &[Call]); 5] = [
    (8, 8, 2, &[Pages(0, 8), Sync, Gate(2), Sync, Gate(0), Sync]),
    (
        8,
        8,
        64,
        &[
            Pages(0, 64),
            Pages(64, 6),
            Sync,
            Gate(2),
            Sync,
            Gate(0),
            Sync,
        ],
    ),
    (
        8,
        10,
        64,
        &[
            Pages(0, 64),
            Pages(64, 8),
            Sync,
            Gate(2),
            Sync,
            Gate(0),
            Sync,
        ],
    ),
    (0, 0, 1, &[Pages(0, 4), Sync, Gate(1), Sync, Gate(0), Sync]),
    (0, 1, 1, &[Pages(0, 8), Sync, Gate(1), Sync, Gate(0), Sync]),
];

// The disk of a new store of so many arcs with room for so many, and with so many journal pages.
fn made(alloc: Global, arcs: usize, room: u64, journal_pages: u32) -> Result<MemDisk, Refusal> {
    new_disk(alloc, &life_of(arcs, room, MARKS, journal_pages))
}

// Of a store that is made all pages are written, the journal's too, with closed gates; then a sync, slot A's gate, a sync, the header's gate
// and a sync. No write has more than 64 pages.
#[test]
fn calls_of_create(rt: HostRuntime) {
    for (arcs, room, journal_pages, calls) in CREATIONS {
        let disk = made(rt.alloc(), arcs, room, journal_pages).expect(&rt, "memory");
        assert!(rt;
            first_other(&disk, calls).is_none(),
            "{arcs} arcs, room {room}"
        );
    }
}

// A look at a file syncs it, and writes nothing.
#[test]
fn calls_of_a_look(rt: HostRuntime) {
    let disk = made(rt.alloc(), 8, 8, 2).expect(&rt, "memory");
    let mut disk = stopped(disk, Pick::Old);
    assert!(rt; inspect(rt.alloc(), &mut disk).is_ok());
    assert!(rt; first_other(&disk, &[Sync]).is_none());
}
