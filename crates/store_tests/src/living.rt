// Lives of stores, act by act: commits, checkpoints whole and in parts, stops within them, calls that fail, and the pages that they leave.
use crate::page_rows::PageRow;
use crate::steps::Act::{Cut, Failed, Lived, Pages, Stopped};
use crate::steps::Step::{Checkpoint, Commit, Look, Part};
use crate::steps::{Act, GOING, Life, Row, first_other_act};
use disk::Pick;
use roadnet::{Command, Refusal};

/// Arc 1 gets another length three times.
pub const LENGTHS: Life = Life {
    arcs: None,
    room: 8,
    journal_pages: 2,
    groups: &[
        &[Command::Set { arc: 1, length: 1 }],
        &[Command::Set { arc: 1, length: 2 }],
        &[Command::Set { arc: 1, length: 3 }],
    ],
};

const CLOSE: Command = Command::Close { arc: 7 };

const SHORTER: Command = Command::Set { arc: 8, length: 4 };

const LAY: Command = Command::Lay {
    tail: 6,
    head: 1,
    length: 7,
};

/// The same, where the second group lays an arc.
pub const LAYING: Life = Life {
    room: 9,
    groups: &[
        &[Command::Set { arc: 1, length: 1 }],
        &[LAY, Command::Set { arc: 1, length: 2 }],
        &[Command::Set { arc: 1, length: 3 }],
    ],
    ..LENGTHS
};

/// A commit of one command, of two as one group, and of one that lays an arc, for which there is room; and a further one.
pub const CLOSING: Life = Life {
    journal_pages: 64,
    groups: &[&[CLOSE], &[SHORTER]],
    ..LENGTHS
};

pub const DETOUR: Life = Life {
    groups: &[&[CLOSE, SHORTER], &[SHORTER]],
    ..LENGTHS
};

pub const LAID: Life = Life {
    room: 10,
    groups: &[&[LAY], &[SHORTER]],
    ..LENGTHS
};

/// A checkpoint in three parts: of three word pages; and of two word pages and three end pages, where the second part is the last word page and the first
/// end page, in one write. Each group closes an arc, and where there is room it lays one.
pub const WORDS_IN_PARTS: Life = Life {
    arcs: Some(2047),
    room: 2047,
    journal_pages: 2,
    groups: &[
        &[Command::Close { arc: 1 }],
        &[Command::Close { arc: 2 }],
        &[Command::Close { arc: 3 }],
    ],
};

const LAY_BACK: Command = Command::Lay {
    tail: 2,
    head: 1,
    length: 1,
};

pub const ENDS_IN_PARTS: Life = Life {
    arcs: Some(8),
    room: 1500,
    journal_pages: 2,
    groups: &[
        &[LAY_BACK, Command::Close { arc: 1 }],
        &[LAY_BACK, Command::Close { arc: 2 }],
        &[LAY_BACK, Command::Close { arc: 3 }],
    ],
};

// The next row of a journal of two pages is refused until there was a checkpoint.
const FULL: [Row; 4] = [
    (Commit, Ok(1), (1, 1, true)),
    (Commit, Ok(2), (2, 2, true)),
    (Commit, Err(Refusal::JournalFull), (2, 2, true)),
    (Checkpoint, Ok(2), (2, 0, true)),
];

const CUT: [Row; 2] = [
    (Look, Ok(2), (2, 0, true)),
    (Commit, Err(Refusal::Device), (2, 0, false)),
];

// A further commit, and a checkpoint of slot A.
const FURTHER: [Row; 3] = [
    (Look, Ok(2), (2, 0, true)),
    (Commit, Ok(3), (3, 1, true)),
    (Checkpoint, Ok(3), (3, 0, true)),
];

// Heads without landmarks: of slot B after `close 7` and a checkpoint, and of slot A after two checkpoints, the second at version 3 with
// three pages written.
const HEAD_2: [u8; 32] =
    *b"\x00\x00\x00\x00\x00\x00\x00\x02\x00\x00\x00\x00\x00\x00\x00\x01\x00\x00\x00\x00\x00\x00\x00\x01\x00\x00\x00\x00\x00\x00\x00\x08";

const HEAD_3: [u8; 32] =
    *b"\x00\x00\x00\x00\x00\x00\x00\x03\x00\x00\x00\x00\x00\x00\x00\x03\x00\x00\x00\x00\x00\x00\x00\x03\x00\x00\x00\x00\x00\x00\x00\x08";

// The head of slot B after `lay 6 1 7` and a checkpoint, without landmarks and with nine arcs; the words, and the ends of the ninth arc.
const HEAD_OF_NINE: [u8; 32] =
    *b"\x00\x00\x00\x00\x00\x00\x00\x02\x00\x00\x00\x00\x00\x00\x00\x01\x00\x00\x00\x00\x00\x00\x00\x01\x00\x00\x00\x00\x00\x00\x00\x09";

const WORDS_OF_NINE: [u8; 36] =
    *b"\x00\x00\x00\x11\x00\x00\x00\x0a\x00\x00\x00\x02\x00\x00\x00\x00\x00\x00\x00\x00\x00\x00\x00\x03\x00\x00\x00\x00\x00\x00\x00\x14\x00\x00\x00\x07";

const ENDS_OF_NINE: [u8; 8] = *b"\x00\x00\x00\x06\x00\x00\x00\x01";

// The words of the arcs after `close 7`.
const WORDS: [u8; 32] =
    *b"\x00\x00\x00\x11\x00\x00\x00\x0a\x00\x00\x00\x02\x00\x00\x00\x00\x00\x00\x00\x00\x00\x00\x00\x03\x80\x00\x00\x00\x00\x00\x00\x14";

// Bytes 0 to 31 of the journal page of sequence 0 and first number 1, of one record and of two; and the records.
const PAGE_OF_CLOSE: [u8; 48] =
    *b"\x00\x00\x00\x00\x00\x00\x00\x00\x00\x00\x00\x00\x00\x00\x00\x01\x00\x01\x00\x00\x00\x00\x00\x00\x00\x00\x00\x00\x00\x00\x00\x00\x02\x00\x00\x00\x00\x00\x00\x07\x00\x00\x00\x00\x00\x00\x00\x00";

const PAGE_OF_DETOUR: [u8; 64] =
    *b"\x00\x00\x00\x00\x00\x00\x00\x00\x00\x00\x00\x00\x00\x00\x00\x01\x00\x02\x00\x00\x00\x00\x00\x00\x00\x00\x00\x00\x00\x00\x00\x00\x02\x01\x00\x00\x00\x00\x00\x07\x00\x00\x00\x00\x00\x00\x00\x00\x01\x00\x00\x00\x00\x00\x00\x08\x00\x00\x00\x04\x00\x00\x00\x00";

const PAGE_OF_LAY: [u8; 48] =
    *b"\x00\x00\x00\x00\x00\x00\x00\x00\x00\x00\x00\x00\x00\x00\x00\x01\x00\x01\x00\x00\x00\x00\x00\x00\x00\x00\x00\x00\x00\x00\x00\x00\x06\x00\x00\x00\x00\x00\x00\x06\x00\x00\x00\x01\x00\x00\x00\x07";

const ONE: [Row; 1] = [(Commit, Ok(1), (1, 1, true))];

const STAYS: [Row; 1] = [(Look, Ok(1), (1, 1, true))];

const CHECKED: [Row; 2] = [
    (Commit, Ok(1), (1, 1, true)),
    (Checkpoint, Ok(1), (1, 0, true)),
];

const CUT_CHECKPOINT: [Row; 2] = [
    (Look, Ok(1), (1, 1, true)),
    (Checkpoint, Err(Refusal::Device), (1, 1, false)),
];

const FAILED: [Row; 2] = [
    (Commit, Err(Refusal::Device), (0, 0, false)),
    (Commit, Err(Refusal::Broken), (0, 0, false)),
];

// A checkpoint of three parts or fewer, with commits between them. The journal is full until it is done.
const BETWEEN: [Row; 6] = [
    (Commit, Ok(1), (1, 1, true)),
    (Part(1), Ok(GOING), (1, 1, false)),
    (Commit, Ok(2), (2, 2, false)),
    (Commit, Err(Refusal::JournalFull), (2, 2, false)),
    (Part(64), Ok(1), (2, 1, true)),
    (Commit, Ok(3), (3, 2, true)),
];

const BETWEEN_OPENED: [Row; 3] = [
    (Look, Ok(3), (3, 2, true)),
    (Checkpoint, Ok(3), (3, 0, true)),
    (Part(1), Ok(3), (3, 0, true)),
];

// The head of slot A, the pages of slot B where the gate's write is missing and where it is made, and those of slot B of nine arcs.
const THIRD_HEAD: [PageRow; 1] = [(2, &HEAD_3, 165)];

const SHUT: [PageRow; 1] = [(4, &HEAD_2, 0)];

const OPENED: [PageRow; 2] = [(4, &HEAD_2, 165), (5, &WORDS, 0)];

const OF_NINE: [PageRow; 4] = [
    (4, &[], 0),
    (5, &HEAD_OF_NINE, 165),
    (6, &WORDS_OF_NINE, 0),
    (7, &ENDS_OF_NINE, 0),
];

// The first two pages of the journal. Without room it begins at page 6, and with room for ten arcs at page 8.
const CLOSE_SPELLED: [PageRow; 2] = [(6, &PAGE_OF_CLOSE, 165), (7, &[], 0)];

const DETOUR_SPELLED: [PageRow; 2] = [(6, &PAGE_OF_DETOUR, 165), (7, &[], 0)];

const LAY_SPELLED: [PageRow; 2] = [(8, &PAGE_OF_LAY, 165), (9, &[], 0)];

/// A life, and what becomes of its disk.
type Lives = (Life, &'static [Act]);

const LIVES: [Lives; 10] = [
    // A page is reused behind a checkpoint alone.
    (
        LENGTHS,
        &[
            Lived(&FULL),
            Cut(3, Pick::Byte(170), &CUT),
            Lived(&FURTHER),
            Pages(&THIRD_HEAD),
            Lived(&[(Look, Ok(3), (3, 0, true))]),
        ],
    ),
    // The page that is reused is closed, and half written; then the next commit is stopped in its body, which could open the gate if that were written first.
    (
        LENGTHS,
        &[
            Lived(&FULL),
            Cut(3, Pick::New, &CUT),
            Cut(1, Pick::Byte(165), &CUT),
            Lived(&[(Look, Ok(2), (2, 0, true))]),
        ],
    ),
    // A checkpoint is cut in its gate's write, which is missing and then made.
    (
        CLOSING,
        &[
            Lived(&ONE),
            Cut(4, Pick::Old, &CUT_CHECKPOINT),
            Pages(&SHUT),
            Cut(4, Pick::New, &CUT_CHECKPOINT),
            Pages(&OPENED),
            Lived(&[(Look, Ok(1), (1, 0, true))]),
        ],
    ),
    // Opening makes nine calls of the disk; the commit reads the gate, writes the body, syncs, opens the gate, and then its second sync fails. What opening
    // finds then it has synced.
    (
        CLOSING,
        &[
            Failed(9 + 5, &FAILED),
            Lived(&STAYS),
            Stopped(Pick::Old),
            Lived(&STAYS),
        ],
    ),
    // With room for ten arcs, slot B is a head, a page of words and one of ends, from page 5 on.
    (LAID, &[Lived(&CHECKED), Pages(&OF_NINE)]),
    // Commits between the parts of a checkpoint.
    (WORDS_IN_PARTS, &[Lived(&BETWEEN), Lived(&BETWEEN_OPENED)]),
    (ENDS_IN_PARTS, &[Lived(&BETWEEN), Lived(&BETWEEN_OPENED)]),
    // What a commit writes.
    (CLOSING, &[Lived(&ONE), Pages(&CLOSE_SPELLED)]),
    (DETOUR, &[Lived(&ONE), Pages(&DETOUR_SPELLED)]),
    (LAID, &[Lived(&ONE), Pages(&LAY_SPELLED)]),
];

#[test]
fn stores_are_taken_step_by_step(rt: HostRuntime) {
    for (i, (life, acts)) in LIVES.iter().enumerate() {
        let other = first_other_act(rt.alloc(), life, acts).expect(&rt, "memory");
        assert!(rt; other.is_none(), "life {i}, act {other:?}");
    }
}
