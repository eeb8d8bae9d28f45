// Stores that are made, where the new disk is stopped at each of its writes and syncs.
use crate::bytes::with_bytes;
use crate::old_files::old_six_file;
use crate::stores::{opened, six_disk, six_in_room};
use disk::{Disk, FuseDisk, MemDisk, Pick, Stoppable};
use roadnet::Refusal;
use std::alloc::Global;
use store::{Store, copy, create, migrate};

// What a store is made of: of a network, of a store of format 1 at version 1, or of one of this format at version 0.
#[derive(Clone, Copy, Debug)]
enum Making {
    New,
    Migrated,
    Copied,
}

// What is made on a disk, or what that is refused with, and the disk.
type Made<D> = Result<Store<D>, (Refusal, D)>;

// What a disk has behind it, and the refusal if there is one.
fn closed<D: Disk>(made: Made<D>) -> (Option<Refusal>, D) {
    match made {
        Ok(store) => (None, store.close()),
        Err((refusal, disk)) => (Some(refusal), disk),
    }
}

// A store of the network of the worked rows, with room for ten arcs and 64 journal pages.
fn new<D: Disk + Drop>(alloc: Global, disk: D) -> Result<(Option<Refusal>, D), Refusal> {
    let network = six_in_room(alloc, &[6, 3], 10)?;
    Ok(closed(create(alloc, disk, &network, 64)))
}

// The same of a store of format 1.
fn migrated<D: Disk + Drop>(alloc: Global, disk: D) -> Result<(Option<Refusal>, D), Refusal> {
    let mut old = with_bytes(alloc, &old_six_file(alloc)?)?;
    Ok(closed(migrate(alloc, &mut old, disk, Some(10))))
}

// The same of a store of this format.
fn copied<D: Disk + Drop>(alloc: Global, disk: D) -> Result<(Option<Refusal>, D), Refusal> {
    let mut old = six_disk(alloc, 64)?;
    Ok(closed(copy(alloc, &mut old, disk, Some(10), None)))
}

fn made<D: Disk + Drop>(
    alloc: Global,
    making: Making,
    disk: D,
) -> Result<(Option<Refusal>, D), Refusal> {
    match making {
        Making::New => new(alloc, disk),
        Making::Migrated => migrated(alloc, disk),
        Making::Copied => copied(alloc, disk),
    }
}

// The version of the store on this disk, the number of its arcs and its room.
fn found(alloc: Global, disk: MemDisk) -> Result<(u64, usize, u32), Refusal> {
    let store = opened(alloc, disk)?;
    let network = store.network();
    Ok((store.version(), network.arcs().len(), network.room()))
}

// What is refused where a disk passes k writes and syncs, and what opening answers of what a stop with this pick leaves.
type Left = (Option<Refusal>, Result<(u64, usize, u32), Refusal>);

fn stopped(alloc: Global, making: Making, k: u64, pick: Pick) -> Result<Left, Refusal> {
    let (refusal, disk) = made(alloc, making, FuseDisk::new(MemDisk::new(alloc), k))?;
    let mut disk = disk.into_inner();
    let _ = disk.stop(&[pick]);
    Ok((refusal, found(alloc, disk)))
}

// The first of eight numbers of calls by which a stop with this pick leaves something else, where the new store stands from such a number on.
fn first_other(
    alloc: Global,
    (making, version): (Making, u64),
    (pick, from): (Pick, u64),
) -> Result<Option<u64>, Refusal> {
    for k in 0..8 {
        let refusal = if k < 7 { Some(Refusal::Device) } else { None };
        let stands = if k < from {
            Err(Refusal::NotAStore)
        } else {
            Ok((version, 8, 10))
        };
        if stopped(alloc, making, k, pick)? != (refusal, stands) {
            return Ok(Some(k));
        }
    }
    Ok(None)
}

const MAKINGS: [(Making, u64); 3] = [(Making::New, 0), (Making::Migrated, 1), (Making::Copied, 0)];

// By the pick, from how many of the seven writes and syncs on the new store stands: from the write of the header's gate, or from the sync behind it.
const STOPS: [(Pick, u64); 4] = [
    (Pick::Old, 7),
    (Pick::New, 6),
    (Pick::Byte(165), 6),
    (Pick::Byte(17), 7),
];

// Two writes of pages, a sync, slot A's gate, a sync, the header's gate, a sync. Before the last sync no store is promised; but what stands is no store or the
// new one.
#[test]
fn makings_are_stopped(rt: HostRuntime) {
    for making in MAKINGS {
        for stop in STOPS {
            let other = first_other(rt.alloc(), making, stop).expect(&rt, "memory");
            assert!(rt; other.is_none(), "{making:?} {stop:?}, call {other:?}");
        }
    }
}
