use disk::{Disk, MemDisk};
use roadnet::Refusal;
use std::alloc::Global;

/// Puts bytes into a file, where it has these places.
pub fn put(file: &mut [u8], at: usize, bytes: &[u8]) {
    for (i, &byte) in bytes.iter().enumerate() {
        if let Some(place) = file.get_mut(at.wrapping_add(i)) {
            *place = byte;
        }
    }
}

/// A disk with these bytes, all of them synced.
pub fn with_bytes(alloc: Global, bytes: &[u8]) -> Result<MemDisk, Refusal> {
    let mut disk = MemDisk::new(alloc);
    let (Ok(()), Ok(())) = (disk.write_at(0, bytes), disk.sync()) else {
        return Err(Refusal::Device);
    };
    Ok(disk)
}
