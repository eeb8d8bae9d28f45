// The steps by which gated bytes are written, over any disk.
ghost use Rattle.std.specs.Prelude.{◌≡◌, ◌+◌, ◌≤◌, ◌<◌, ◌^◌, ◌↔◌, [], ◌∷◌, length, slice_range, IsTrue, IfOk, OnOk};
ghost use Rattle.disk.specs.Calling.{ReadsDisk, WritesDisk};
ghost use Rattle.disk.specs.Contents.{overwritten, Torn, Only};
ghost use Rattle.disk.specs.Gated.{open_byte, IsGateOpen, IsShut, IsOldOrShut, IsShutOrOpened, IsWholeOrShut, with_page};

use crate::{Disk, DiskError};

/// The byte of an open gate. With any other byte the gate is closed.
pub const OPEN: u8 = 0xA5;

const CLOSED: u8 = 0;

/// Writes, and then syncs.
pub fn write_synced<D: Disk>(disk: &mut D, at: u64, bytes: &[u8]) -> Result<(), DiskError>
    requires at_rest { D.honest disk.old → Only (D.content disk.old) (D.left disk.old) }
    requires within { D.honest disk.old → at ≤ length (D.content disk.old) }
    ensures written { D.honest disk.old → OnOk result (D.content disk.new ≡ overwritten (D.content disk.old) at bytes.now) }
    // A stop during the call leaves the content with any bytes in the range.
    ensures writes { WritesDisk D.Disk (Torn at (length bytes.now) (D.content disk.old)) result disk.old disk.new }
{
    disk.write_at(at, bytes)?;
    disk.sync()
}

/// Syncs, as when opening. It changes nothing, and after it a stop leaves the content.
pub fn settle<D: Disk>(disk: &mut D) -> Result<(), DiskError>
    ensures reads { ReadsDisk D.Disk result disk.old disk.new }
    ensures at_rest { D.honest disk.old → OnOk result (Only (D.content disk.new) (D.left disk.new)) }
{
    disk.sync()
}

/// The content's length. It changes nothing.
pub fn length_of<D: Disk>(disk: &mut D) -> Result<u64, DiskError>
    ensures length { D.honest disk.old → IfOk result (λ n. n ≡ length (D.content disk.old)) }
    ensures reads { ReadsDisk D.Disk result disk.old disk.new }
{
    disk.len()
}

/// Fills `into` with the bytes from `at` on. It changes nothing.
pub fn read_at<D: Disk>(disk: &mut D, at: u64, into: &mut [u8]) -> Result<(), DiskError>
    requires { D.honest disk.old → at + length into.old ≤ length (D.content disk.old) }
    ensures bytes { D.honest disk.old → OnOk result (into.new ≡ slice_range (D.content disk.old) at (at + length into.old)) }
    ensures reads { ReadsDisk D.Disk result disk.old disk.new }
{
    disk.read(at, into)
}

/// Whether the gate at this offset is open, that is, whether its byte is `OPEN`. It changes nothing.
pub fn is_open<D: Disk>(disk: &mut D, gate_at: u64) -> Result<bool, DiskError>
    requires { D.honest disk.old → gate_at < length (D.content disk.old) }
    ensures answer { D.honest disk.old → IfOk result (λ answer. IsTrue answer ↔ IsGateOpen gate_at (D.content disk.old)) }
    ensures reads { ReadsDisk D.Disk result disk.old disk.new }
{
    let mut gate = [0];
    read_at(disk, gate_at, &mut gate)?;
    Ok(gate[0] == OPEN)
}

/// Closes the gate at this offset if it reads open, and syncs. A gate that reads closed is not written: a torn write could open it over a torn body.
pub fn close_gate<D: Disk>(disk: &mut D, gate_at: u64) -> Result<(), DiskError>
    requires at_rest { D.honest disk.old → Only (D.content disk.old) (D.left disk.old) }
    requires within { D.honest disk.old → gate_at < length (D.content disk.old) }
    ensures shut { D.honest disk.old → OnOk result (IsShut gate_at 1 gate_at (D.content disk.old) (D.content disk.new)) }
    ensures writes { WritesDisk D.Disk (IsOldOrShut (D.content disk.old) gate_at) result disk.old disk.new }
{
    if !is_open(disk, gate_at)? {
        return Ok(());
    }
    write_synced(disk, gate_at, &[CLOSED])
}

/// Opens the gate at this offset, and syncs.
pub fn open_gate<D: Disk>(disk: &mut D, gate_at: u64) -> Result<(), DiskError>
    requires at_rest { D.honest disk.old → Only (D.content disk.old) (D.left disk.old) }
    requires within { D.honest disk.old → gate_at < length (D.content disk.old) }
    ensures opened { D.honest disk.old → OnOk result (D.content disk.new ≡ overwritten (D.content disk.old) gate_at (open_byte ∷ [])) }
    ensures writes { WritesDisk D.Disk (IsShutOrOpened (D.content disk.old) gate_at) result disk.old disk.new }
{
    write_synced(disk, gate_at, &[OPEN])
}

/// Writes a page, which is a body followed by its gate, over the one at this offset: first the old gate is closed if it reads open, then the body is
/// written, then the new gate. Each of these writes is followed by a sync.
pub fn write_gated<D: Disk>(disk: &mut D, at: u64, body: &[u8]) -> Result<(), DiskError>
    requires at_rest { D.honest disk.old → Only (D.content disk.old) (D.left disk.old) }
    requires within { D.honest disk.old → at + length body.now + 1 ≤ length (D.content disk.old) }
    requires fits { at + length body.now < 2 ^ 64 }
    ensures written { D.honest disk.old → OnOk result (D.content disk.new ≡ with_page (D.content disk.old) at body.now) }
    // A stop during the call leaves the old page whole, the new one whole, or a closed gate.
    ensures writes { WritesDisk D.Disk (IsWholeOrShut (D.content disk.old) at body.now) result disk.old disk.new }
{
    let gate_at = at + body.len() as u64;
    close_gate(disk, gate_at)?;
    write_synced(disk, at, body)?;
    open_gate(disk, gate_at)
}
