ghost use Rattle.std.specs.Prelude.{◌≡◌, [], min, ◌+◌, ◌-◌, ◌^◌};

use disk::{Disk, DiskError};
use roadnet::OutOfMemory;
use std::alloc::Global;

/// A disk in memory that takes none: it has a place for so many bytes, and fails past them.
#[derive(Drop)]
pub struct FixedDisk {
    /// Its places, the first of which are its content.
    pub places: Vec<u8>,
    /// How many bytes its content has.
    pub length: usize,
    /// How many of its calls failed.
    pub failures: u64,
}

impl FixedDisk {
    /// An empty disk with a place for so many bytes.
    pub fn new(alloc: Global, size: usize) -> Result<FixedDisk, OutOfMemory> {
        Ok(FixedDisk {
            places: vec![in alloc; 0; size]?,
            length: 0,
            failures: 0,
        })
    }

    /// A disk with these bytes, and a place for no more.
    pub fn full(alloc: Global, bytes: &[u8]) -> Result<FixedDisk, OutOfMemory> {
        Ok(FixedDisk {
            places: Vec::from_slice(alloc, bytes)?,
            length: bytes.len(),
            failures: 0,
        })
    }
}

fn fail(failures: &mut u64) -> DiskError
    ensures { failures.new ≡ min (failures.old + 1) (2 ^ 64 - 1) }
{
    *failures = failures.saturating_add(1);
    DiskError
}

impl Disk for FixedDisk {
    ghost content = { λ _. [] };

    ghost left = { λ _ _. ⊥ };

    ghost moment = { λ _. 0 };

    ghost left_since = { λ _ _ _. ⊥ };

    ghost failures = { λ disk. min disk.failures (2 ^ 64 - 1) };

    ghost honest = { λ _. ⊥ };

    fn len(&mut self) -> Result<u64, DiskError> {
        Ok(self.length as u64)
    }

    fn read(&mut self, at: u64, into: &mut [u8]) -> Result<(), DiskError> {
        let from = at as usize;
        match self.places.get(from..from.wrapping_add(into.len())) {
            Some(bytes) if bytes.len() == into.len() => {
                into.copy_from_slice(bytes);
                Ok(())
            }
            _ => Err(fail(&mut self.failures)),
        }
    }

    fn write_at(&mut self, at: u64, bytes: &[u8]) -> Result<(), DiskError> {
        let from = at as usize;
        let end = from.wrapping_add(bytes.len());
        if end < from || self.places.len() < end {
            return Err(fail(&mut self.failures));
        }
        self.places[from..end].copy_from_slice(bytes);
        self.length = self.length.max(end);
        Ok(())
    }

    fn sync(&mut self) -> Result<(), DiskError> {
        Ok(())
    }

    ghost leaves_content = { λ _ never. absurd never };

    ghost counts_now = { λ _ _ _ never _ _. absurd never };

    ghost only_now = { λ _ _ never _. absurd never };
}
