// The pages of stores that are made, and of those that are made of a store of format 1.
use crate::bytes::with_bytes;
use crate::old_files::{ARCS_OF_SIX, old_six_file};
use crate::page_rows::{PageRow, first_other_page};
use crate::stores::{created, opened, six_disk, six_in_room};
use disk::{Disk, MemDisk, Pick, Stoppable};
use fixtures::arc;
use roadnet::{Command, Refusal};
use std::alloc::Global;
use store::{Store, copy, migrate};

// The header of six nodes and eight arcs with a journal of 64 pages, with room for no more arcs and with room for ten.
const HEADER: [u8; 28] =
    *b"ROADMRK1\x00\x00\x00\x02\x00\x00\x00\x06\x00\x00\x00\x08\x00\x00\x00\x40\x00\x00\x00\x08";

const ROOMY_HEADER: [u8; 28] =
    *b"ROADMRK1\x00\x00\x00\x02\x00\x00\x00\x06\x00\x00\x00\x08\x00\x00\x00\x40\x00\x00\x00\x0a";

// The head of slot A of a new store with two landmarks and eight arcs, and that of one which is made at version 1 without landmarks.
const HEAD: [u8; 40] =
    *b"\x00\x00\x00\x00\x00\x00\x00\x01\x00\x00\x00\x00\x00\x00\x00\x00\x00\x00\x00\x00\x00\x00\x00\x00\x00\x00\x00\x02\x00\x00\x00\x08\x00\x00\x00\x03\x00\x00\x00\x06";

const HEAD_AT_1: [u8; 32] =
    *b"\x00\x00\x00\x00\x00\x00\x00\x01\x00\x00\x00\x00\x00\x00\x00\x01\x00\x00\x00\x00\x00\x00\x00\x00\x00\x00\x00\x00\x00\x00\x00\x08";

// The words, and those behind `close 7`.
const WORDS: [u8; 32] =
    *b"\x00\x00\x00\x11\x00\x00\x00\x0a\x00\x00\x00\x02\x00\x00\x00\x00\x00\x00\x00\x00\x00\x00\x00\x03\x00\x00\x00\x00\x00\x00\x00\x14";

const WORDS_AT_1: [u8; 32] =
    *b"\x00\x00\x00\x11\x00\x00\x00\x0a\x00\x00\x00\x02\x00\x00\x00\x00\x00\x00\x00\x00\x00\x00\x00\x03\x80\x00\x00\x00\x00\x00\x00\x14";

// The first pages of a new store, by number, bytes and gate.
const PAGES: [PageRow; 4] = [
    (0, &HEADER, 165),
    (1, &ARCS_OF_SIX, 0),
    (2, &HEAD, 165),
    (3, &WORDS, 0),
];

const ROOMY_PAGES: [PageRow; 4] = [
    (0, &ROOMY_HEADER, 165),
    (1, &ARCS_OF_SIX, 0),
    (2, &HEAD, 165),
    (3, &WORDS, 0),
];

// Those of one that is made of the worked store of format 1, which is at version 1.
const MIGRATED: [PageRow; 4] = [
    (0, &HEADER, 165),
    (1, &ARCS_OF_SIX, 0),
    (2, &HEAD_AT_1, 165),
    (3, &WORDS_AT_1, 0),
];

const ROOMY_MIGRATED: [PageRow; 4] = [
    (0, &ROOMY_HEADER, 165),
    (1, &ARCS_OF_SIX, 0),
    (2, &HEAD_AT_1, 165),
    (3, &WORDS_AT_1, 0),
];

// The first page from 4 on, of so many, that is not zeros, if there is one.
fn first_used(disk: &mut MemDisk, pages: u64) -> Result<Option<u64>, Refusal> {
    for number in 4..pages {
        if first_other_page(disk, &[(number, &[], 0)])?.is_some() {
            return Ok(Some(number));
        }
    }
    Ok(None)
}

// Whether the disk has so many pages, these first, and zeros on the others. No stop's choice is left.
fn has_pages(disk: &mut MemDisk, first: &[PageRow], pages: u64) -> Result<bool, Refusal> {
    let is_whole = disk.len() == Ok(pages.wrapping_mul(4096)) && !disk.stop(&[Pick::Byte(7)]);
    let other = first_other_page(disk, first)?;
    let used = first_used(disk, pages)?;
    Ok(is_whole && other.is_none() && used.is_none())
}

// Whether a new store with room for so many arcs has these pages.
fn is_new(alloc: Global, room: u64, first: &[PageRow], pages: u64) -> Result<bool, Refusal> {
    let mut disk = created(alloc, &six_in_room(alloc, &[6, 3], room)?, 64)?;
    has_pages(&mut disk, first, pages)
}

// Without room each slot is a head and a page of words, and with room a page of ends besides: from page 4 on all are zeros in either.
#[test]
fn pages_of_a_new_store(rt: HostRuntime) {
    assert!(rt; is_new(rt.alloc(), 8, &PAGES, 70).expect(&rt, "memory"));
    assert!(rt; is_new(rt.alloc(), 10, &ROOMY_PAGES, 72).expect(&rt, "memory"));
}

// The store that is made of the worked one with this room.
fn migrated(alloc: Global, room: Option<u64>) -> Result<Store<MemDisk>, Refusal> {
    let mut old = with_bytes(alloc, &old_six_file(alloc)?)?;
    match migrate(alloc, &mut old, MemDisk::new(alloc), room) {
        Ok(store) => Ok(store),
        Err((refusal, _)) => Err(refusal),
    }
}

// Whether a store that is migrated with this room has these pages.
fn is_migrated(
    alloc: Global,
    room: Option<u64>,
    first: &[PageRow],
    pages: u64,
) -> Result<bool, Refusal> {
    let mut disk = migrated(alloc, room)?.close();
    has_pages(&mut disk, first, pages)
}

// Without a room there is room for the arcs that there are.
#[test]
fn pages_of_a_migrated_store(rt: HostRuntime) {
    assert!(rt; is_migrated(rt.alloc(), None, &MIGRATED, 70).expect(&rt, "memory"));
    assert!(rt; is_migrated(rt.alloc(), Some(10), &ROOMY_MIGRATED, 72).expect(&rt, "memory"));
}

const LAY: Command = Command::Lay {
    tail: 6,
    head: 1,
    length: 7,
};

// The journal page of the first commit behind a migrated store: sequence 0, first number 2.
const LAID: [u8; 48] =
    *b"\x00\x00\x00\x00\x00\x00\x00\x00\x00\x00\x00\x00\x00\x00\x00\x02\x00\x01\x00\x00\x00\x00\x00\x00\x00\x00\x00\x00\x00\x00\x00\x00\x06\x00\x00\x00\x00\x00\x00\x06\x00\x00\x00\x01\x00\x00\x00\x07";

// Its journal numbers its groups on, and its sequences anew: the page stands at the journal's first place.
fn goes_on(alloc: Global) -> Result<bool, Refusal> {
    let mut store = migrated(alloc, Some(10))?;
    let right = store.version() == 1 && store.commit(&[LAY]) == Ok(2);
    let mut disk = store.close();
    Ok(right && first_other_page(&mut disk, &[(8, &LAID, 165)])?.is_none())
}

// The disk of a store of the worked network, behind `close 7`, and what that answers to `lay 6 1 7`.
fn full(alloc: Global) -> Result<(Result<u64, Refusal>, MemDisk), Refusal> {
    let mut store = opened(alloc, six_disk(alloc, 2)?)?;
    store.commit(&[Command::Close { arc: 7 }])?;
    let answer = store.commit(&[LAY]);
    Ok((answer, store.close()))
}

// A store without a place for a new arc gets one by a copy, which keeps its version.
fn has_more_room(alloc: Global) -> Result<bool, Refusal> {
    let (answer, mut disk) = full(alloc)?;
    let Ok(new) = copy(alloc, &mut disk, MemDisk::new(alloc), Some(9), None) else {
        return Ok(false);
    };
    let mut new = new;
    let laid = new.commit(&[LAY]) == Ok(2) && new.network().arc(9) == Some(arc(6, 1, 7));
    let closed = new.network().arc(7).is_some_and(|arc| !arc.opened);
    Ok(laid && closed && answer == Err(Refusal::NoRoom))
}

#[test]
fn migrated_and_copied_stores_go_on(rt: HostRuntime) {
    assert!(rt; goes_on(rt.alloc()).expect(&rt, "memory"));
    assert!(rt; has_more_room(rt.alloc()).expect(&rt, "memory"));
}
