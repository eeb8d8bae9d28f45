// What opening finds in files that are made here, one of them by hand.
use crate::bytes::{put, with_bytes};
use crate::stores::{created, opened, six_in_room};
use disk::{Disk, MemDisk};
use fixtures::arc;
use roadnet::{Command, Group, Network, Refusal, RoadArc};
use std::alloc::Global;
use store::Store;

const PAGE: usize = 4096;

// The bytes of slot B, made by hand: epoch 2, version 4, next sequence 1, nine arcs, and the landmarks 1, 3 and 6; the words behind `close 7`
// and `set 8 4`, and that of the arc that was laid, and its ends.
const HEAD_B: [u8; 44] =
    *b"\x00\x00\x00\x00\x00\x00\x00\x02\x00\x00\x00\x00\x00\x00\x00\x04\x00\x00\x00\x00\x00\x00\x00\x01\x00\x00\x00\x03\x00\x00\x00\x09\x00\x00\x00\x01\x00\x00\x00\x03\x00\x00\x00\x06";

const WORDS_B: [u8; 36] =
    *b"\x00\x00\x00\x11\x00\x00\x00\x0a\x00\x00\x00\x02\x00\x00\x00\x00\x00\x00\x00\x00\x00\x00\x00\x03\x80\x00\x00\x00\x00\x00\x00\x04\x00\x00\x00\x07";

const ENDS_B: [u8; 8] = *b"\x00\x00\x00\x06\x00\x00\x00\x01";

// The first ten pages of a disk; fewer where it has fewer.
fn bytes_of(alloc: Global, disk: &mut MemDisk) -> Result<Vec<u8>, Refusal> {
    let Ok(length) = disk.len() else {
        return Err(Refusal::Device);
    };
    let length = (length as usize).min(10 * PAGE);
    let mut bytes = vec![in alloc; 0; length]?;
    let Ok(()) = disk.read(0, &mut bytes) else {
        return Err(Refusal::Device);
    };
    Ok(bytes)
}

// The network of the worked rows, with two landmarks and room for two arcs more.
pub fn roomy_six(alloc: Global) -> Result<Network, Refusal> {
    six_in_room(alloc, &[6, 3], 10)
}

// The file of a new store with two journal pages: ten pages.
fn new_file(alloc: Global) -> Result<Vec<u8>, Refusal> {
    let mut disk = created(alloc, &roomy_six(alloc)?, 2)?;
    bytes_of(alloc, &mut disk)
}

const fn lay(tail: u64, head: u64, length: u64) -> Command {
    Command::Lay { tail, head, length }
}

// Two flushes: of four groups, and of a group of two commands and one of one as one page.
fn flush_twice(alloc: Global, store: &mut Store<MemDisk>) -> Result<(), Refusal> {
    store.commit(&[
        Command::Set { arc: 8, length: 4 },
        Command::Close { arc: 7 },
        Command::Mark { node: 1 },
        lay(6, 1, 7),
    ])?;
    let two = [Command::Reopen { arc: 7 }, Command::Unmark { node: 3 }];
    let two = Group::new(Vec::from_slice(alloc, &two)?)?;
    store.commit_groups(&[two, Group::one(lay(1, 6, 14))])?;
    Ok(())
}

// The same after two flushes, of four groups and of two, in which both journal pages are written.
fn flushed_file(alloc: Global) -> Result<Vec<u8>, Refusal> {
    let mut store = opened(alloc, with_bytes(alloc, &new_file(alloc)?)?)?;
    flush_twice(alloc, &mut store)?;
    bytes_of(alloc, &mut store.close())
}

// The same, with slot B written behind the first flush, and slot A still open.
pub fn two_slot_file(alloc: Global) -> Result<Vec<u8>, Refusal> {
    let mut file = flushed_file(alloc)?;
    put(&mut file, 5 * PAGE, &HEAD_B);
    put(&mut file, 6 * PAGE, &WORDS_B);
    put(&mut file, 7 * PAGE, &ENDS_B);
    put(&mut file, 6 * PAGE - 1, &[165]);
    Ok(file)
}

// Whether opening finds this version, so many unchecked pages and these landmarks, with these arcs behind the sixth.
fn finds(
    alloc: Global,
    file: &[u8],
    (version, unchecked): (u64, u32),
    landmarks: &[u32],
    arcs: &[RoadArc],
) -> Result<bool, Refusal> {
    let store = opened(alloc, with_bytes(alloc, file)?)?;
    let network = store.network();
    Ok(
        store.version() == version
            && store.unchecked() == unchecked
            && network.landmarks() == landmarks
            && network.arcs().get(6..) == Some(arcs),
    )
}

// Whether it finds the arcs behind the commits of these tests, too.
fn finds_last(alloc: Global, file: &[u8], told: (u64, u32)) -> Result<bool, Refusal> {
    let last = [arc(5, 2, 0), arc(5, 6, 4), arc(6, 1, 7), arc(1, 6, 14)];
    finds(alloc, file, told, &[1, 6], &last)
}

// A new store, one behind two flushes, and one with both slots, of which the later one is current: what each stands for.
#[test]
fn files_are_opened(rt: HostRuntime) {
    let alloc = rt.alloc();
    let first = [arc(5, 2, 0), arc(5, 6, 20)];
    let file = new_file(alloc).expect(&rt, "memory");
    assert!(rt; finds(alloc, &file, (0, 0), &[3, 6], &first) == Ok(true));
    let file = flushed_file(alloc).expect(&rt, "memory");
    assert!(rt; finds_last(alloc, &file, (6, 2)) == Ok(true));
    let file = two_slot_file(alloc).expect(&rt, "memory");
    assert!(rt; finds_last(alloc, &file, (6, 1)) == Ok(true));
}
