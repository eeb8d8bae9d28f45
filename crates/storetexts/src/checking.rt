// A store that is only examined.
ghost use Rattle.std.specs.Prelude.{◌↔◌, OnOk, IfErr};
ghost use Rattle.disk.specs.Contents.{Only};
ghost use Rattle.disk.specs.Moments.{StaysSame};
ghost use Rattle.printing.specs.Counting.{writer_of};
ghost use Rattle.printing.specs.Failing.{LeavesUnwritten};
ghost use Rattle.store.specs.Opening.{HeaderFits};
ghost use Rattle.storetexts.specs.Checked.{slot_line, standing_lines, IsChecked, IsRefusedCheck};
ghost use Rattle.storetexts.specs.Refused.{IfNoMemory, CountsDevice};
ghost use Rattle.printing.specs.Writers.{KeepsWriter, Puts};

use disk::Disk;
use pages::Slot;
use printing::{CountedWriter, Failed, put_numbered, put_version};
use std::alloc::Global;
use std::io::Write;
use store::{Standing, inspect};

/// `slot A E` or `slot B E`
fn put_slot<W: Write>(out: &mut CountedWriter<'_, W>, slot: Slot, epoch: u64) -> Result<(), Failed>
    ensures { Puts W.contents (slot_line slot epoch) result out.old out.new }
{
    match slot {
        Slot::A => put_numbered(out, b"slot A ", epoch),
        Slot::B => put_numbered(out, b"slot B ", epoch),
    }
}

/// `v V`, `slot A E` or `slot B E`, and `journal U`, sent.
fn put_standing<W: Write>(
    out: &mut CountedWriter<'_, W>,
    version: u64,
    standing: Standing,
) -> Result<(), Failed>
    ensures { Puts W.contents (standing_lines version standing) result out.old out.new }
{
    put_version(out, version)?;
    put_slot(out, standing.slot, standing.epoch)?;
    put_numbered(out, b"journal ", u64::from(standing.unchecked))?;
    out.flush()
}

/// Examines the store on a disk, and writes how it stands: `v V`, its version; `slot A E` or `slot B E`, the slot that holds its last checkpoint, with that
/// slot's epoch; `journal U`, how many pages of the journal follow that checkpoint. The whole file is judged first. Nothing is written to the disk, which
/// is handed back.
///
/// It is refused as opening is: for a file that is not a store (40), another format (41), a damaged page (42), a failing disk (43), or, only if the header
/// fits the file, lack of memory (11). Then nothing is written. 43 is reported only if the disk's count of failures rose. A failed write is 12, and is
/// reported only if the count of the writer's failed calls rose; then the writer is not used again.
pub fn check_text<D: Disk, W: Write>(
    alloc: Global,
    disk: D,
    out: &mut CountedWriter<'_, W>,
) -> (Result<(), Failed>, D)
    // The lines are those of what the content stands for.
    ensures answered { OnOk result.0 (IsChecked (D.honest disk) (D.content disk) (W.contents (writer_of out.old)) (W.contents (writer_of out.new))) }
    ensures refused { IfErr result.0 (IsRefusedCheck (D.honest disk) (D.content disk)) }
    ensures order { D.honest disk → IfErr result.0 (λ failed. IfNoMemory failed (HeaderFits (D.content disk))) }
    // The disk's count of failures rises if 43 is reported. At no other refusal does it rise, except perhaps at a failed write.
    ensures failed { CountsDevice (D.failures disk) (D.failures result.1) result.0 }
    // Nothing is written to the disk.
    ensures untouched { D.honest disk → StaysSame D.content D.left D.moment D.left_since disk result.1 }
    // No stop takes back what is printed.
    ensures at_rest { D.honest disk → OnOk result.0 (Only (D.content result.1) (D.left result.1)) }
    ensures honest { D.honest result.1 ↔ D.honest disk }
    ensures unwritten { IfErr result.0 (LeavesUnwritten (writer_of out.old) (writer_of out.new)) }
    ensures writes { KeepsWriter result.0 out.old out.new }
{
    let mut disk = disk;
    let found = match inspect(alloc, &mut disk) {
        Ok(found) => found,
        Err(refusal) => return (Err(Failed::Code(refusal)), disk),
    };
    let told = put_standing(out, found.version, found.standing);
    (told, disk)
}
