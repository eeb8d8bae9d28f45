//! Calls of a file that are completed or fail.
ghost use Rattle.std.specs.Prelude.{◌≡◌, ◌+◌, ◌≤◌, ◌↔◌, length, slice_range, OnOk, OnErr};
ghost use Rattle.disk.specs.Contents.{overwritten, AreAmong, PartlyWritten};
ghost use Rattle.filedisk.specs.Files.{Unchanged, Tears, lengthened};
ghost use Rattle.filedisk.specs.Whole.{MakesRoom, FailsRoom, WritesAll, WritesPart, WritesWhole, FailsWhole, ReadsAll, ReadsPart};

use crate::RawFile;
use disk::DiskError;

/// Fills `into` with the bytes from `at` on.
pub(crate) fn read_whole<F: RawFile>(
    file: &mut F,
    at: u64,
    into: &mut [u8],
) -> Result<(), DiskError>
    requires { F.honest file.old → at + length into.old ≤ length (F.content file.old) }
    ensures made { OnOk result (ReadsAll at into.new (F.calls file.old) (F.calls file.new)) }
    ensures ended { OnErr result (ReadsPart at (length into.old) (F.calls file.old) (F.calls file.new)) }
    ensures bytes { F.honest file.old → OnOk result (into.new ≡ slice_range (F.content file.old) at (at + length into.old)) }
    ensures same { F.honest file.old → Unchanged F.content F.left F.moment F.left_since file.old file.new }
    ensures honest { F.honest file.new ↔ F.honest file.old }
{
    let mut filled = 0usize;
    while filled < into.len() {
        let Some(place) = at.checked_add(filled as u64) else {
            return Err(DiskError);
        };
        let count = match file.read_some(place, &mut into[filled..]) {
            Ok(count) => count,
            Err(_) => return Err(DiskError),
        };
        if count == 0 {
            return Err(DiskError);
        }
        filled += count;
    }
    Ok(())
}

/// Writes all of the bytes at `at`, within the length.
fn write_within<F: RawFile>(file: &mut F, at: u64, bytes: &[u8]) -> Result<(), DiskError>
    requires { F.honest file.old → at + length bytes.now ≤ length (F.content file.old) }
    ensures made { OnOk result (WritesAll at bytes.now (F.calls file.old) (F.calls file.new)) }
    ensures ended { OnErr result (WritesPart at bytes.now (F.calls file.old) (F.calls file.new)) }
    ensures written { F.honest file.old → OnOk result (F.content file.new ≡ overwritten (F.content file.old) at bytes.now) }
    ensures tears { F.honest file.old → Tears at (length bytes.now) F.content F.left F.moment F.left_since file.old file.new }
    ensures keeps { F.honest file.old → AreAmong (F.left file.old) (F.left file.new) }
    ensures honest { F.honest file.new ↔ F.honest file.old }
{
    let mut written = 0usize;
    while written < bytes.len() {
        let Some(place) = at.checked_add(written as u64) else {
            return Err(DiskError);
        };
        let count = match file.write_some(place, &bytes[written..]) {
            Ok(count) => count,
            Err(_) => return Err(DiskError),
        };
        if count == 0 {
            return Err(DiskError);
        }
        written += count;
    }
    Ok(())
}

/// Makes the file as long as these bytes need, if it is shorter.
fn make_room<F: RawFile>(file: &mut F, at: u64, count: usize) -> Result<(), DiskError>
    requires { F.honest file.old → at ≤ length (F.content file.old) }
    ensures made { OnOk result (MakesRoom (at + count) (F.calls file.old) (F.calls file.new)) }
    ensures ended { OnErr result (FailsRoom (at + count) (F.calls file.old) (F.calls file.new)) }
    ensures room { F.honest file.old → OnOk result (F.content file.new ≡ lengthened (F.content file.old) (at + count)) }
    ensures failed { F.honest file.old → OnErr result (F.content file.new ≡ F.content file.old) }
    ensures tears { F.honest file.old → Tears at count F.content F.left F.moment F.left_since file.old file.new }
    ensures honest { F.honest file.new ↔ F.honest file.old }
{
    let Ok(size) = file.size() else {
        return Err(DiskError);
    };
    let Some(end) = at.checked_add(count as u64) else {
        return Err(DiskError);
    };
    if end <= size {
        return Ok(());
    }
    match file.lengthen(end) {
        Ok(()) => Ok(()),
        Err(_) => Err(DiskError),
    }
}

/// Writes all of the bytes at `at`, over what is there and beyond the end. The file is first lengthened, so that a write that fails leaves the old length
/// or the new one.
pub(crate) fn write_whole<F: RawFile>(file: &mut F, at: u64, bytes: &[u8]) -> Result<(), DiskError>
    requires { F.honest file.old → at ≤ length (F.content file.old) }
    ensures made { OnOk result (WritesWhole at bytes.now (F.calls file.old) (F.calls file.new)) }
    ensures ended { OnErr result (FailsWhole at bytes.now (F.calls file.old) (F.calls file.new)) }
    ensures written { F.honest file.old → OnOk result (F.content file.new ≡ overwritten (F.content file.old) at bytes.now) }
    ensures failed { F.honest file.old → OnErr result (PartlyWritten at (length bytes.now) (F.content file.old) (F.content file.new)) }
    ensures tears { F.honest file.old → Tears at (length bytes.now) F.content F.left F.moment F.left_since file.old file.new }
    ensures honest { F.honest file.new ↔ F.honest file.old }
{
    make_room(file, at, bytes.len())?;
    write_within(file, at, bytes)
}
