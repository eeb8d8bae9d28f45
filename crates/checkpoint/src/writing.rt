// Writing a checkpoint, part by part.
ghost use Rattle.std.specs.Prelude.{◌≡◌, ◌+◌, ◌-◌, ◌*◌, ◌<◌, ◌≤◌, ◌^◌, ◌↔◌, min, nat_lt, not, true, false, length, IfOk, OnOk, OnErr};
ghost use Rattle.disk.specs.Calling.{WritesDisk, WritesUnsynced};
ghost use Rattle.disk.specs.Contents.{Only};
ghost use Rattle.disk.specs.Gated.{IsGateOpen, IsOldOrShut};
ghost use Rattle.pages.specs.Layout.{other, slot_pages};
ghost use Rattle.pagereader.specs.Reading.{HasFileOf};
ghost use Rattle.storefile.specs.StoreFile.{page};
ghost use Rattle.checkpoint.specs.Writing.{slot_gate, HoldsPages, IsGateShut, IsSlotShut, LeavesSlotShut, IsDraftWhole, IsDraftShutOrWhole, WhileGoing, OnceWhole};

use crate::frozen::FrozenNetwork;
use crate::slot_pages::{gate_at, put_pages, write_head, write_pages};
use disk::{Disk, DiskError, close_gate, open_gate, settle};
use pages::{Header, PAGE_SIZE, PAGES_AT_ONCE, Slot, encode_slot_head};
use std::alloc::{AllocError, Global};
use std::marker::Model;

const BUFFER_SIZE: usize = PAGES_AT_ONCE * PAGE_SIZE;

/// A checkpoint that is being written to the slot that is not current. Its calls are all lent the same network, which is written with the version and next
/// sequence that it had at the beginning.
///
/// It is written by `begin`, by `write_part` while pages are left, and by `finish`. Between these calls the rest of the file may be written. After a
/// failure of the disk nothing more may be written.
///
/// It takes a buffer of 256 KiB, and its calls take no memory.
#[derive(Drop)]
pub struct NextCheckpoint {
    slot: Slot,
    epoch: u64,
    version: u64,
    next_sequence: u64,
    // How many of the pages after the head are written.
    written: u64,
    // The pages of one write.
    buffer: Vec<u8>,
}

impl Model for NextCheckpoint {
    ghost use Rattle.std.specs.Prelude.{◌≡◌, ◌*◌, length};
    ghost use Rattle.checkpoint.specs.Writing.{Draft};
    ghost use Rattle.pages.specs.Limits.{page_size};

    ghost Value = { Draft };

    ghost view = { λ c. record { slot = c.slot; epoch = c.epoch; version = c.version; next_sequence = c.next_sequence; written = c.written } };

    ghost invariant = { λ c. length c.buffer.items ≡ 64 * page_size };
}

impl NextCheckpoint {
    /// The checkpoint after the current one, which has this slot and this epoch: it goes to the other slot, with the next epoch. Nothing of it is written
    /// yet.
    pub fn new(
        alloc: Global,
        current: Slot,
        epoch: u64,
        version: u64,
        next_sequence: u64,
    ) -> Result<NextCheckpoint, AllocError>
        requires { epoch + 1 < 2 ^ 64 }
        ensures { IfOk result (λ c. c ≡ record { slot = other current; epoch = epoch + 1; version = version; next_sequence = next_sequence; written = 0 }) }
    {
        let buffer = vec![in alloc; 0; BUFFER_SIZE]?;
        Ok(NextCheckpoint {
            slot: current.other(),
            epoch: epoch + 1,
            version,
            next_sequence,
            written: 0,
            buffer,
        })
    }

    /// The slot to which it goes.
    pub fn slot(&self) -> Slot
        ensures { result ≡ self.now.slot }
    {
        self.slot
    }

    /// The epoch that the slot gets: one above the current one's.
    pub fn epoch(&self) -> u64
        ensures { result ≡ self.now.epoch }
    {
        self.epoch
    }

    /// The version of the network that is written.
    pub fn version(&self) -> u64
        ensures { result ≡ self.now.version }
    {
        self.version
    }

    /// How many word pages and end pages are still to be written.
    pub fn pages_left(&self, header: &Header) -> u64
        ensures { result ≡ slot_pages header.now - self.now.written }
    {
        header.slot_pages().saturating_sub(self.written)
    }

    /// Closes the slot's gate if it reads open, and syncs. If it reads closed, nothing is written.
    ///
    /// A sync must precede it: a stop may leave only the content.
    pub fn begin<D: Disk>(&self, disk: &mut D, header: &Header) -> Result<(), DiskError>
        requires file { HasFileOf D.Disk header.now disk.old }
        requires at_rest { D.honest disk.old → Only (D.content disk.old) (D.left disk.old) }
        // Only the gate may have changed in the content, and it is closed.
        ensures shut { D.honest disk.old → OnOk result (IsGateShut header.now self.now.slot (D.content disk.old) (D.content disk.new)) }
        // A stop during the call leaves the content as it was, or with that gate closed.
        ensures writes { WritesDisk D.Disk (IsOldOrShut (D.content disk.old) (slot_gate header.now self.now.slot)) result disk.old disk.new }
    {
        close_gate(disk, gate_at(header, self.slot))
    }

    /// Writes the next word pages and end pages of this network, in order and in one write: at most `max_pages` (1 to 64) of those that are left. If some
    /// are then left, a sync follows; otherwise the sync of `finish` covers them.
    pub fn write_part<D: Disk>(
        &mut self,
        disk: &mut D,
        header: &Header,
        network: &FrozenNetwork<'_>,
        max_pages: u32,
    ) -> Result<(), DiskError>
        requires file { HasFileOf D.Disk header.now disk.old }
        requires some { 1 ≤ max_pages }
        requires few { max_pages ≤ 64 }
        requires left { self.old.written < slot_pages header.now }
        requires shut { D.honest disk.old → LeavesSlotShut header.now self.old.slot (D.content disk.old) (D.left disk.old) }
        requires pages { D.honest disk.old → HoldsPages (page (D.content disk.old)) header.now self.old.slot network.now self.old.written }
        ensures written { OnOk result (self.new ≡ record self.old { written = min (self.old.written + max_pages) (slot_pages header.now) }) }
        ensures same { OnErr result (self.new ≡ self.old) }
        // The slot has the pages so far, its gate is closed, and the rest of the content is as it was.
        ensures pages { D.honest disk.old → OnOk result (HoldsPages (page (D.content disk.new)) header.now self.old.slot network.now self.new.written) }
        ensures content { D.honest disk.old → OnOk result (IsSlotShut header.now self.old.slot (D.content disk.old) (D.content disk.new)) }
        ensures shut { D.honest disk.old → OnOk result (LeavesSlotShut header.now self.old.slot (D.content disk.new) (D.left disk.new)) }
        // If pages are left, a stop may leave only the content.
        ensures at_rest { D.honest disk.old → OnOk result (self.new.written < slot_pages header.now → Only (D.content disk.new) (D.left disk.new)) }
        ensures writes { WritesUnsynced D.Disk (IsSlotShut header.now self.old.slot (D.content disk.old)) result disk.old disk.new }
    {
        let left = self.pages_left(header);
        let count = left.min(u64::from(max_pages));
        let size = PAGE_SIZE * count as usize;
        put_pages(
            &mut self.buffer,
            header,
            network,
            self.written,
            count as usize,
        );
        write_pages(disk, header, self.slot, self.written, &self.buffer[..size])?;
        if count < left {
            settle(disk)?;
        }
        self.written += count;
        Ok(())
    }

    /// Writes the head, syncs, opens the gate and syncs: then the slot is whole. All other pages of the slot must be written before; whether they are
    /// synced makes no difference.
    pub fn finish<D: Disk>(
        &self,
        disk: &mut D,
        header: &Header,
        network: &FrozenNetwork<'_>,
    ) -> Result<(), DiskError>
        requires file { HasFileOf D.Disk header.now disk.old }
        requires none_left { self.now.written ≡ slot_pages header.now }
        requires shut { D.honest disk.old → LeavesSlotShut header.now self.now.slot (D.content disk.old) (D.left disk.old) }
        requires pages { D.honest disk.old → HoldsPages (page (D.content disk.old)) header.now self.now.slot network.now self.now.written }
        ensures content { D.honest disk.old → OnOk result (IsDraftWhole header.now self.now network.now (D.content disk.old) (D.content disk.new)) }
        // A stop during the call leaves the slot with a closed gate, or whole, and the rest of the content as it was.
        ensures writes { WritesDisk D.Disk (IsDraftShutOrWhole header.now self.now network.now (D.content disk.old)) result disk.old disk.new }
    {
        let page = encode_slot_head(
            header.format,
            self.epoch,
            self.version,
            self.next_sequence,
            network.arc_count(),
            network.landmarks(),
        );
        write_head(disk, header, self.slot, &page)?;
        settle(disk)?;
        open_gate(disk, gate_at(header, self.slot))
    }

    /// Writes a part of what is left: the next word pages and end pages of this network, at most `max_pages` (1 to 64) in one write. If some are then left,
    /// a sync follows; otherwise it also writes the head and the gate, as `finish` does. Returns whether the slot is whole. After a failure the checkpoint
    /// has come as far as before.
    ///
    /// A sync must precede it: a stop may leave only the content.
    pub fn go_on<D: Disk>(
        &mut self,
        disk: &mut D,
        header: &Header,
        network: &FrozenNetwork<'_>,
        max_pages: u32,
    ) -> Result<bool, DiskError>
        requires file { HasFileOf D.Disk header.now disk.old }
        requires some { 1 ≤ max_pages }
        requires few { max_pages ≤ 64 }
        requires within { self.old.written ≤ slot_pages header.now }
        requires at_rest { D.honest disk.old → Only (D.content disk.old) (D.left disk.old) }
        requires closed { D.honest disk.old → IsGateOpen (slot_gate header.now self.old.slot) (D.content disk.old) → ⊥ }
        requires pages { D.honest disk.old → HoldsPages (page (D.content disk.old)) header.now self.old.slot network.now self.old.written }
        // The slot is whole if no more pages were left than this part may write.
        ensures answers { IfOk result (λ whole. nat_lt max_pages (slot_pages header.now - self.old.written) ≡ not whole) }
        ensures part { IfOk result (λ whole. whole ≡ false → self.new ≡ record self.old { written = self.old.written + max_pages }) }
        ensures own { self.new ≡ record self.old { written = self.new.written } }
        ensures same { OnErr result (self.new ≡ self.old) }
        // Until then the slot has the pages so far, and its gate is closed.
        ensures pages { D.honest disk.old → IfOk result (WhileGoing (HoldsPages (page (D.content disk.new)) header.now self.old.slot network.now self.new.written)) }
        ensures shut { D.honest disk.old → IfOk result (WhileGoing (IsSlotShut header.now self.old.slot (D.content disk.old) (D.content disk.new))) }
        ensures content { D.honest disk.old → IfOk result (OnceWhole (IsDraftWhole header.now self.old network.now (D.content disk.old) (D.content disk.new))) }
        // A stop during the call leaves the slot with a closed gate, or whole, and the rest of the content as it was.
        ensures writes { WritesDisk D.Disk (IsDraftShutOrWhole header.now self.old network.now (D.content disk.old)) result disk.old disk.new }
    {
        if self.pages_left(header) > u64::from(max_pages) {
            self.write_part(disk, header, network, max_pages)?;
            return Ok(false);
        }
        self.complete(disk, header, network, max_pages)?;
        Ok(true)
    }

    // Writes all pages that are left.
    fn write_parts<D: Disk>(
        &mut self,
        disk: &mut D,
        header: &Header,
        network: &FrozenNetwork<'_>,
        max_pages: u32,
    ) -> Result<(), DiskError>
        requires file { HasFileOf D.Disk header.now disk.old }
        requires some { 1 ≤ max_pages }
        requires few { max_pages ≤ 64 }
        requires within { self.old.written ≤ slot_pages header.now }
        requires shut { D.honest disk.old → LeavesSlotShut header.now self.old.slot (D.content disk.old) (D.left disk.old) }
        requires pages { D.honest disk.old → HoldsPages (page (D.content disk.old)) header.now self.old.slot network.now self.old.written }
        ensures written { OnOk result (self.new ≡ record self.old { written = slot_pages header.now }) }
        ensures same { self.new ≡ record self.old { written = self.new.written } }
        ensures pages { D.honest disk.old → OnOk result (HoldsPages (page (D.content disk.new)) header.now self.old.slot network.now (slot_pages header.now)) }
        ensures content { D.honest disk.old → OnOk result (IsSlotShut header.now self.old.slot (D.content disk.old) (D.content disk.new)) }
        ensures shut { D.honest disk.old → OnOk result (LeavesSlotShut header.now self.old.slot (D.content disk.new) (D.left disk.new)) }
        ensures writes { WritesUnsynced D.Disk (IsSlotShut header.now self.old.slot (D.content disk.old)) result disk.old disk.new }
    {
        while self.pages_left(header) > 0 {
            self.write_part(disk, header, network, max_pages)?;
        }
        Ok(())
    }

    // Writes the pages that are left, and then finishes.
    fn write_all<D: Disk>(
        &mut self,
        disk: &mut D,
        header: &Header,
        network: &FrozenNetwork<'_>,
        max_pages: u32,
    ) -> Result<(), DiskError>
        requires file { HasFileOf D.Disk header.now disk.old }
        requires some { 1 ≤ max_pages }
        requires few { max_pages ≤ 64 }
        requires within { self.old.written ≤ slot_pages header.now }
        requires shut { D.honest disk.old → LeavesSlotShut header.now self.old.slot (D.content disk.old) (D.left disk.old) }
        requires pages { D.honest disk.old → HoldsPages (page (D.content disk.old)) header.now self.old.slot network.now self.old.written }
        ensures same { self.new ≡ record self.old { written = self.new.written } }
        ensures content { D.honest disk.old → OnOk result (IsDraftWhole header.now self.old network.now (D.content disk.old) (D.content disk.new)) }
        // A stop during the call leaves the slot with a closed gate, or whole, and the rest of the content as it was.
        ensures writes { WritesDisk D.Disk (IsDraftShutOrWhole header.now self.old network.now (D.content disk.old)) result disk.old disk.new }
    {
        self.write_parts(disk, header, network, max_pages)?;
        self.finish(disk, header, network)
    }

    /// Writes everything that is left: the word pages and end pages, at most `max_pages` (1 to 64) in a write, and then as `finish` does. After a failure
    /// the checkpoint has come as far as before.
    pub fn complete<D: Disk>(
        &mut self,
        disk: &mut D,
        header: &Header,
        network: &FrozenNetwork<'_>,
        max_pages: u32,
    ) -> Result<(), DiskError>
        requires file { HasFileOf D.Disk header.now disk.old }
        requires some { 1 ≤ max_pages }
        requires few { max_pages ≤ 64 }
        requires within { self.old.written ≤ slot_pages header.now }
        requires shut { D.honest disk.old → LeavesSlotShut header.now self.old.slot (D.content disk.old) (D.left disk.old) }
        requires pages { D.honest disk.old → HoldsPages (page (D.content disk.old)) header.now self.old.slot network.now self.old.written }
        ensures same { self.new ≡ record self.old { written = self.new.written } }
        // After a failure the checkpoint has come as far as before.
        ensures back { OnErr result (self.new ≡ self.old) }
        ensures content { D.honest disk.old → OnOk result (IsDraftWhole header.now self.old network.now (D.content disk.old) (D.content disk.new)) }
        // A stop during the call leaves the slot with a closed gate, or whole, and the rest of the content as it was.
        ensures writes { WritesDisk D.Disk (IsDraftShutOrWhole header.now self.old network.now (D.content disk.old)) result disk.old disk.new }
    {
        let written = self.written;
        let Ok(()) = self.write_all(disk, header, network, max_pages) else {
            self.written = written;
            return Err(DiskError);
        };
        Ok(())
    }
}
