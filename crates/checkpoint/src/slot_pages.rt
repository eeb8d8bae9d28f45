// The pages of a slot that is being written.
ghost use Rattle.std.specs.Prelude.{◌≡◌, ◌≢◌, ◌+◌, ◌*◌, ◌<◌, ◌≤◌, ◌^◌, ◌↔◌, ℕ, length, OnOk};
ghost use Rattle.disk.specs.Calling.{WritesUnsynced};
ghost use Rattle.disk.specs.Contents.{overwritten};
ghost use Rattle.pages.specs.Spelling.{IsHeader, body};
ghost use Rattle.pages.specs.Layout.{slot_pages};
ghost use Rattle.pages.specs.Limits.{page_size};
ghost use Rattle.pagereader.specs.Reading.{HasFileOf};
ghost use Rattle.storefile.specs.StoreFile.{page};
ghost use Rattle.checkpoint.specs.Writing.{slot_at, slot_gate, slot_page, slot_page_at, slot_byte_at, IsSlotShut, LeavesSlotShut};

use crate::frozen::FrozenNetwork;
use disk::{Disk, DiskError};
use pages::{GATE_AT, Header, PAGE_SIZE, Slot};

/// Where the gate of a slot is in the file.
pub fn gate_at(header: &Header, slot: Slot) -> u64
    requires { IsHeader header.now }
    ensures { result ≡ slot_gate header.now slot }
{
    PAGE_SIZE as u64 * header.head_page(slot) + GATE_AT as u64
}

/// Puts a page at the `i`-th place of the buffer.
fn put_page(buffer: &mut [u8], i: usize, bytes: &[u8; PAGE_SIZE])
    requires { page_size * (i + 1) ≤ length buffer.old }
    ensures put { page buffer.new i ≡ bytes.now }
    ensures others { (j : ℕ) → j ≢ i → page buffer.new j ≡ page buffer.old j }
    ensures size { length buffer.new ≡ length buffer.old }
{
    let from = PAGE_SIZE * i;
    buffer[from..from + PAGE_SIZE].copy_from_slice(bytes);
}

/// The `i`-th page after a slot's head.
fn page_behind(header: &Header, network: &FrozenNetwork<'_>, i: u64) -> [u8; PAGE_SIZE]
    ensures { result ≡ slot_page header.now network.now i }
{
    let words = header.word_pages();
    if i < words {
        network.words_page(i)
    } else {
        network.ends_page(header, i - words)
    }
}

/// Puts so many of the pages after a slot's head, from the `first` on, at the front of the buffer.
pub fn put_pages(
    buffer: &mut [u8],
    header: &Header,
    network: &FrozenNetwork<'_>,
    first: u64,
    count: usize,
)
    requires few { first + count ≤ 2 ^ 32 }
    requires room { page_size * count ≤ length buffer.old }
    ensures pages { (i : ℕ) → i < count → page buffer.new i ≡ slot_page header.now network.now (first + i) }
    ensures size { length buffer.new ≡ length buffer.old }
{
    for i in 0..count {
        let page = page_behind(header, network, first + i as u64);
        put_page(buffer, i, &page);
    }
}

/// Writes these pages after a slot's head, from the `first` on.
pub fn write_pages<D: Disk>(
    disk: &mut D,
    header: &Header,
    slot: Slot,
    first: u64,
    pages: &[u8],
) -> Result<(), DiskError>
    requires file { HasFileOf D.Disk header.now disk.old }
    requires within { first < slot_pages header.now }
    requires room { page_size * first + length pages.now ≤ page_size * slot_pages header.now }
    requires shut { D.honest disk.old → LeavesSlotShut header.now slot (D.content disk.old) (D.left disk.old) }
    ensures written { D.honest disk.old → OnOk result (D.content disk.new ≡ overwritten (D.content disk.old) (slot_byte_at header.now slot first) pages.now) }
    ensures content { D.honest disk.old → IsSlotShut header.now slot (D.content disk.old) (D.content disk.new) }
    ensures shut { D.honest disk.old → LeavesSlotShut header.now slot (D.content disk.new) (D.left disk.new) }
    ensures writes { WritesUnsynced D.Disk (IsSlotShut header.now slot (D.content disk.old)) result disk.old disk.new }
{
    let number = slot_page_at(header, slot, first);
    disk.write_at(PAGE_SIZE as u64 * number, pages)
}

/// The number of the page at this place after a slot's head.
fn slot_page_at(header: &Header, slot: Slot, i: u64) -> u64
    requires header { IsHeader header.now }
    requires within { i < slot_pages header.now }
    ensures { result ≡ slot_page_at header.now slot i }
{
    header.head_page(slot) + 1 + i
}

/// Writes a slot's head, all of the page but its gate.
pub fn write_head<D: Disk>(
    disk: &mut D,
    header: &Header,
    slot: Slot,
    page: &[u8; PAGE_SIZE],
) -> Result<(), DiskError>
    requires file { HasFileOf D.Disk header.now disk.old }
    requires shut { D.honest disk.old → LeavesSlotShut header.now slot (D.content disk.old) (D.left disk.old) }
    ensures written { D.honest disk.old → OnOk result (D.content disk.new ≡ overwritten (D.content disk.old) (slot_at header.now slot) (body page.now)) }
    ensures content { D.honest disk.old → IsSlotShut header.now slot (D.content disk.old) (D.content disk.new) }
    ensures shut { D.honest disk.old → LeavesSlotShut header.now slot (D.content disk.new) (D.left disk.new) }
    ensures writes { WritesUnsynced D.Disk (IsSlotShut header.now slot (D.content disk.old)) result disk.old disk.new }
{
    let at = PAGE_SIZE as u64 * header.head_page(slot);
    disk.write_at(at, &page[..GATE_AT])
}
