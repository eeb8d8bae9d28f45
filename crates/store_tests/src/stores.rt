ghost use Rattle.std.specs.Prelude.{◌≤◌};

use disk::{Disk, MemDisk};
use fixtures::six_with;
use roadnet::{Network, Refusal};
use std::alloc::Global;
use store::{Store, create, open};

/// The disk of a new store of this network, with so many journal pages.
pub fn created(alloc: Global, network: &Network, journal_pages: u32) -> Result<MemDisk, Refusal>
    requires some { 1 ≤ journal_pages }
    requires few { journal_pages ≤ 65536 }
{
    match create(alloc, MemDisk::new(alloc), network, journal_pages) {
        Ok(store) => Ok(store.close()),
        Err((refusal, _)) => Err(refusal),
    }
}

/// The network of the worked rows with these landmarks, and room for so many arcs.
pub fn six_in_room(alloc: Global, landmarks: &[u32], room: u64) -> Result<Network, Refusal> {
    match six_with(alloc, landmarks)?.with_room(room) {
        Ok(network) => Ok(network),
        Err((refusal, _)) => Err(refusal),
    }
}

/// The disk of a new store of the worked network, without landmarks, with room for so many arcs.
pub fn roomy_disk(alloc: Global, room: u64, journal_pages: u32) -> Result<MemDisk, Refusal>
    requires some { 1 ≤ journal_pages }
    requires few { journal_pages ≤ 65536 }
{
    let network = six_in_room(alloc, &[], room)?;
    created(alloc, &network, journal_pages)
}

/// The same with room for no more.
pub fn six_disk(alloc: Global, journal_pages: u32) -> Result<MemDisk, Refusal>
    requires some { 1 ≤ journal_pages }
    requires few { journal_pages ≤ 65536 }
{
    roomy_disk(alloc, 8, journal_pages)
}

/// The store on this disk.
pub fn opened<D: Disk + Drop>(alloc: Global, disk: D) -> Result<Store<D>, Refusal> {
    match open(alloc, disk) {
        Ok(store) => Ok(store),
        Err((refusal, _)) => Err(refusal),
    }
}
