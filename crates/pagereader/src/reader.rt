ghost use Rattle.std.specs.Prelude.{◌≡◌, ◌+◌, ◌-◌, ◌*◌, ◌<◌, ◌≤◌, ◌^◌, ◌↔◌, [], IsTrue, length, take, drop, IfOk, OnOk};
ghost use Rattle.disk.specs.Calling.{ReadsDisk};
ghost use Rattle.storefile.specs.StoreFile.{page};
ghost use Rattle.pages.specs.Limits.{page_size};
ghost use Rattle.pagereader.specs.Runs.{IsRunOf, HoldsPage};

use disk::{Disk, DiskError, read_at};
use pages::{PAGE_SIZE, PAGES_AT_ONCE};
use std::alloc::{AllocError, Global};
use std::marker::Model;

const BUFFER_SIZE: usize = PAGES_AT_ONCE * PAGE_SIZE;

/// Reads page `k` of the file. It changes nothing.
pub fn read_page<D: Disk>(disk: &mut D, k: u64, into: &mut [u8; PAGE_SIZE]) -> Result<(), DiskError>
    requires fits { k < 2 ^ 52 }
    requires within { D.honest disk.old → page_size * (k + 1) ≤ length (D.content disk.old) }
    ensures bytes { D.honest disk.old → OnOk result (into.new ≡ page (D.content disk.old) k) }
    ensures reads { ReadsDisk D.Disk result disk.old disk.new }
{
    read_at(disk, k * PAGE_SIZE as u64, into)
}

// Reads so many pages from page `k` on into the front of the buffer.
fn read_run<D: Disk>(disk: &mut D, k: u64, count: u64, buffer: &mut [u8]) -> Result<(), DiskError>
    requires fits { k < 2 ^ 52 }
    requires room { page_size * count ≤ length buffer.old }
    requires within { D.honest disk.old → page_size * (k + count) ≤ length (D.content disk.old) }
    ensures bytes { D.honest disk.old → OnOk result (take (page_size * count) buffer.new ≡ take (page_size * count) (drop (page_size * k) (D.content disk.old))) }
    ensures reads { ReadsDisk D.Disk result disk.old disk.new }
{
    read_at(
        disk,
        k * PAGE_SIZE as u64,
        &mut buffer[..count as usize * PAGE_SIZE],
    )
}

/// Reads pages one after the other, up to 64 at a time, into one buffer of 256 KiB.
#[derive(Drop)]
pub struct PageReader {
    buffer: Vec<u8>,
    first: u64,
    // How many pages the buffer holds, from that one on.
    count: u64,
}

impl Model for PageReader {
    ghost use Rattle.std.specs.Prelude.{◌≡◌, ◌*◌, ◌≤◌, take, length};
    ghost use Rattle.pagereader.specs.Runs.{PageRun};
    ghost use Rattle.pages.specs.Limits.{page_size};

    ghost Value = { PageRun };

    ghost view = { λ r. record { first = r.first; bytes = take (page_size * r.count) r.buffer.items } };

    ghost invariant = { λ r. (r.count ≤ 64) × (length r.buffer.items ≡ 64 * page_size) };
}

impl PageReader {
    /// A reader that holds no page.
    pub fn new(alloc: Global) -> Result<PageReader, AllocError>
        ensures { IfOk result (λ reader. reader.bytes ≡ []) }
    {
        let buffer = vec![in alloc; 0; BUFFER_SIZE]?;
        Ok(PageReader {
            buffer,
            first: 0,
            count: 0,
        })
    }

    // Whether page `k` is held.
    fn holds(&self, k: u64) -> bool
        ensures { IsTrue result ↔ ((self.now.first ≤ k) × (page_size * (k - self.now.first + 1) ≤ length self.now.bytes)) }
    {
        self.first <= k && k - self.first < self.count
    }

    // Copies page `k`, which is held.
    fn copy(&self, k: u64, into: &mut [u8; PAGE_SIZE])
        requires from { self.now.first ≤ k }
        requires to { page_size * (k - self.now.first + 1) ≤ length self.now.bytes }
        ensures { into.new ≡ take page_size (drop (page_size * (k - self.now.first)) self.now.bytes) }
    {
        let at = (k - self.first) as usize * PAGE_SIZE;
        into.copy_from_slice(&self.buffer[at..at + PAGE_SIZE]);
    }

    // Holds page `k`: unless it is held, reads as many pages from `k` on as the buffer takes, stopping before `end`.
    fn hold<D: Disk>(&mut self, disk: &mut D, k: u64, end: u64) -> Result<(), DiskError>
        requires some { k < end }
        requires fits { k < 2 ^ 52 }
        requires within { D.honest disk.old → page_size * end ≤ length (D.content disk.old) }
        requires run { D.honest disk.old → IsRunOf (D.content disk.old) self.old }
        ensures from { OnOk result (self.new.first ≤ k) }
        ensures to { OnOk result (page_size * (k - self.new.first + 1) ≤ length self.new.bytes) }
        ensures run { D.honest disk.old → IsRunOf (D.content disk.old) self.new }
        ensures reads { ReadsDisk D.Disk result disk.old disk.new }
    {
        if self.holds(k) {
            return Ok(());
        }
        self.fill(disk, k, end)
    }

    // Reads as many pages from `k` on as the buffer takes, stopping before `end`.
    fn fill<D: Disk>(&mut self, disk: &mut D, k: u64, end: u64) -> Result<(), DiskError>
        requires some { k < end }
        requires fits { k < 2 ^ 52 }
        requires within { D.honest disk.old → page_size * end ≤ length (D.content disk.old) }
        ensures from { OnOk result (self.new.first ≤ k) }
        ensures to { OnOk result (page_size * (k - self.new.first + 1) ≤ length self.new.bytes) }
        ensures run { D.honest disk.old → IsRunOf (D.content disk.old) self.new }
        ensures reads { ReadsDisk D.Disk result disk.old disk.new }
    {
        let count = (end - k).min(PAGES_AT_ONCE as u64);
        self.first = k;
        self.count = 0;
        read_run(disk, k, count, &mut self.buffer)?;
        self.count = count;
        Ok(())
    }

    /// Reads page `k` of the file, one of a run of pages that ends before page `end`. It may read ahead. It changes nothing. The file must stay as it is
    /// while one reader reads it.
    pub fn read<D: Disk>(
        &mut self,
        disk: &mut D,
        k: u64,
        end: u64,
        into: &mut [u8; PAGE_SIZE],
    ) -> Result<(), DiskError>
        requires some { k < end }
        requires fits { k < 2 ^ 52 }
        requires within { D.honest disk.old → page_size * end ≤ length (D.content disk.old) }
        requires run { D.honest disk.old → IsRunOf (D.content disk.old) self.old }
        ensures bytes { D.honest disk.old → OnOk result (into.new ≡ page (D.content disk.old) k) }
        ensures run { D.honest disk.old → IsRunOf (D.content disk.old) self.new }
        // The page stays held, so that it is not read from the disk again.
        ensures kept { OnOk result (HoldsPage self.new k) }
        ensures reads { ReadsDisk D.Disk result disk.old disk.new }
    {
        self.hold(disk, k, end)?;
        self.copy(k, into);
        Ok(())
    }
}
