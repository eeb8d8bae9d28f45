// Growths that are refused: of creating, opening, migrating, and parts of a checkpoint.
use crate::fixed_disk::FixedDisk;
use crate::judging::{roomy_six, two_slot_file};
use crate::old_files::old_six_file;
use disk::Disk;
use fixtures::arc;
use roadnet::{Command, Network, Refusal};
use std::alloc::Global;
use store::{Part, Store, create, migrate, open};

const PAGE: usize = 4096;

// Whether a store is made and stands, or a growth is refused and the disk handed back empty.
fn is_made(alloc: Global) -> Result<bool, Refusal> {
    let network = roomy_six(alloc)?;
    let empty = FixedDisk::new(alloc, 10 * PAGE)?;
    match create(alloc, empty, &network, 2) {
        Ok(store) => {
            let same = store.version() == 0 && store.network().arcs() == network.arcs();
            Ok(same && store.close().length == 10 * PAGE)
        }
        Err((refusal, disk)) => Ok(refusal == Refusal::OutOfMemory && disk.length == 0),
    }
}

// Whether a store is opened and stands, or a growth is refused and the disk handed back with its content as it was.
fn is_opened(alloc: Global) -> Result<bool, Refusal> {
    let file = two_slot_file(alloc)?;
    let full = FixedDisk::full(alloc, &file)?;
    match open(alloc, full) {
        Ok(store) => {
            Ok(store.version() == 6 && store.network().landmarks() == [1, 6].as_slice())
        }
        Err((refusal, disk)) => {
            let same = disk.length == 10 * PAGE && disk.places.as_slice() == file.as_slice();
            Ok(refusal == Refusal::OutOfMemory && same)
        }
    }
}

// A growth that is refused is told, and the disk is handed back with its content as it was. To be run with each allocation failing in turn.
#[test]
fn create_and_open_in_little_memory(rt: HostRuntime) -> Result<(), Refusal> {
    assert!(rt; is_made(rt.alloc())?);
    assert!(rt; is_opened(rt.alloc())?);
    Ok(())
}

// Two nodes and 2,047 arcs: three word pages.
fn three_pages(alloc: Global) -> Result<Network, Refusal> {
    Network::new(alloc, 2, vec![in alloc; arc(1, 2, 5); 2047]?, &[])
}

fn close(arc: u64) -> Command {
    Command::Close { arc }
}

// A new store of three word pages.
fn new_store(alloc: Global) -> Result<Store<FixedDisk>, Refusal> {
    let disk = FixedDisk::new(alloc, 16 * PAGE)?;
    match create(alloc, disk, &three_pages(alloc)?, 2) {
        Ok(store) => Ok(store),
        Err((refusal, _)) => Err(refusal),
    }
}

// What the first part of a checkpoint behind a commit is told: whether it goes, and whether all stands as it should then.
fn first_part<D: Disk>(store: &mut Store<D>) -> Result<(bool, bool), Refusal> {
    store.commit(&[close(1)])?;
    match store.checkpoint_part(1) {
        Ok(part) => Ok((true, part == Part::Going && !store.calm())),
        Err(refusal) => {
            let same = store.calm() && store.unchecked() == 1 && store.version() == 1;
            Ok((false, refusal == Refusal::OutOfMemory && same))
        }
    }
}

// Whether the checkpoint goes on to its end behind another commit.
fn goes_on<D: Disk>(store: &mut Store<D>) -> Result<bool, Refusal> {
    let version = store.commit(&[close(2)])?;
    Ok(
        version == 2
            && store.checkpoint_part(1) == Ok(Part::Going)
            && store.checkpoint_part(1) == Ok(Part::Done(1))
            && store.calm()
            && store.unchecked() == 1
            && store.version() == 2,
    )
}

// A part that finds no memory changes nothing: no checkpoint goes, and each page stays unchecked. One that goes takes no more. To be run
// with each allocation failing in turn.
#[test]
fn parts_in_little_memory(rt: HostRuntime) -> Result<(), Refusal> {
    let mut store = new_store(rt.alloc())?;
    let (goes, stands) = first_part(&mut store)?;
    assert!(rt; stands);
    assert!(rt; !goes || goes_on(&mut store)?);
    Ok(())
}

// Whether a store of format 1 is migrated with room for ten arcs, or a growth is refused and the new disk handed back empty.
fn is_migrated(alloc: Global, old: &mut FixedDisk) -> Result<bool, Refusal> {
    let empty = FixedDisk::new(alloc, 72 * PAGE)?;
    match migrate(alloc, old, empty, Some(10)) {
        Ok(store) => Ok(store.version() == 1 && store.network().room() == 10),
        Err((refusal, new)) => Ok(refusal == Refusal::OutOfMemory && new.length == 0),
    }
}

// A growth that is refused is told, and both disks are as they were. To be run with each allocation failing in turn.
#[test]
fn migrate_in_little_memory(rt: HostRuntime) -> Result<(), Refusal> {
    let file = old_six_file(rt.alloc())?;
    let mut old = FixedDisk::full(rt.alloc(), &file)?;
    assert!(rt; is_migrated(rt.alloc(), &mut old)?);
    assert!(rt; old.places.as_slice() == file.as_slice() && old.failures == 0);
    Ok(())
}
