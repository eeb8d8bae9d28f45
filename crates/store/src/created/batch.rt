// Pages that are written one after the other, many at a time.
ghost use Rattle.std.specs.Prelude.{◌≡◌, ◌+◌, ◌*◌, ◌≤◌, ◌<◌, ◌^◌, ◌↔◌, [], ◌++◌, length, take, IfOk, OnOk, OnErr};
ghost use Rattle.disk.specs.Calling.{Counts};
ghost use Rattle.store.specs.Created.{Waiting, so_far, IsInStep};

use disk::{Disk, DiskError};
use pages::{PAGE_SIZE, PAGES_AT_ONCE};
use std::alloc::{AllocError, Global};
use std::marker::Model;

/// Pages that wait to be written after the content of a disk.
#[derive(Drop)]
pub struct Batch {
    bytes: Vec<u8>,
    count: usize,
    /// The number of the next page.
    next: u64,
}

impl Model for Batch {
    ghost use Rattle.std.specs.Prelude.{◌≡◌, ◌*◌, ◌≤◌, ◌<◌, length, take};
    ghost use Rattle.store.specs.Created.{Waiting};
    ghost use Rattle.pages.specs.Limits.{page_size};

    ghost Value = { Waiting };

    ghost view = { λ b. record { next = b.next; bytes = take (page_size * b.count) b.bytes.items } };

    ghost invariant = { λ b. (length b.bytes.items ≡ 262144) × (b.count < 64) × (b.count ≤ b.next) };
}

impl Batch {
    /// No page yet. It takes memory for 64 pages.
    pub fn new(alloc: Global) -> Result<Batch, AllocError>
        ensures { IfOk result (λ batch. batch ≡ record { next = 0; bytes = [] }) }
    {
        let bytes = vec![in alloc; 0; PAGES_AT_ONCE * PAGE_SIZE]?;
        Ok(Batch {
            bytes,
            count: 0,
            next: 0,
        })
    }

    /// Writes the pages that wait. If that fails, they still wait.
    pub fn flush<D: Disk>(&mut self, disk: &mut D) -> Result<(), DiskError>
        requires few { self.old.next ≤ 2 ^ 32 }
        requires in_step { D.honest disk.old → IsInStep (D.content disk.old) self.old }
        ensures written { D.honest disk.old → OnOk result (D.content disk.new ≡ so_far (D.content disk.old) self.old) }
        ensures emptied { OnOk result (self.new ≡ record { next = self.old.next; bytes = [] }) }
        ensures kept { OnErr result (self.new ≡ self.old) }
        ensures counts { Counts D.Disk result disk.old disk.new }
    {
        let at = PAGE_SIZE as u64 * (self.next - self.count as u64);
        disk.write_at(at, &self.bytes[..PAGE_SIZE * self.count])?;
        self.count = 0;
        Ok(())
    }

    /// Adds a page. Once 64 pages wait, writes them.
    pub fn put<D: Disk>(&mut self, disk: &mut D, page: &[u8; PAGE_SIZE]) -> Result<(), DiskError>
        requires few { self.old.next < 2 ^ 32 }
        requires in_step { D.honest disk.old → IsInStep (D.content disk.old) self.old }
        ensures written { D.honest disk.old → OnOk result (so_far (D.content disk.new) self.new ≡ so_far (D.content disk.old) self.old ++ page.now) }
        ensures next { OnOk result (self.new.next ≡ self.old.next + 1) }
        ensures counts { Counts D.Disk result disk.old disk.new }
    {
        let from = PAGE_SIZE * self.count;
        self.bytes[from..from + PAGE_SIZE].copy_from_slice(page);
        self.next += 1;
        if self.count + 1 < PAGES_AT_ONCE {
            self.count += 1;
            return Ok(());
        }
        self.count = 0;
        disk.write_at(
            PAGE_SIZE as u64 * (self.next - PAGES_AT_ONCE as u64),
            &self.bytes,
        )
    }
}
