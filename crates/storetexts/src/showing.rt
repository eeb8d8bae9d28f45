// The arcs of a store's network, examined.
ghost use Rattle.std.specs.Prelude.{◌↔◌, OnOk, IfErr};
ghost use Rattle.disk.specs.Contents.{Only};
ghost use Rattle.disk.specs.Moments.{StaysSame};
ghost use Rattle.printing.specs.Counting.{writer_of};
ghost use Rattle.printing.specs.Failing.{LeavesUnwritten};
ghost use Rattle.printing.specs.Looks.{look_lines};
ghost use Rattle.store.specs.Opening.{HeaderFits};
ghost use Rattle.storetexts.specs.Shown.{IsStoreShown, IsRefusedShow};
ghost use Rattle.storetexts.specs.Refused.{IfNoMemory, CountsDevice};
ghost use Rattle.printing.specs.Writers.{KeepsWriter, Puts};

use disk::Disk;
use printing::{CountedWriter, Failed, Look, put_look};
use roadnet::Refusal;
use shared_network::SharedNetwork;
use std::alloc::Global;
use std::io::Write;
use store::open;

/// The version and the answer line, sent.
fn put_shown<W: Write>(
    out: &mut CountedWriter<'_, W>,
    network: &SharedNetwork,
    version: u64,
    look: Look,
) -> Result<(), Failed>
    ensures { Puts W.contents (look_lines network.now version look) result out.old out.new }
{
    put_look(out, network, version, look)?;
    out.flush()
}

/// Opens the store on a disk, and writes its version, `v V`, and the answer to a look at the arcs of its network (`printing::put_look`). Nothing is written
/// to the disk, which is handed back.
///
/// It is refused as opening is: for a file that is not a store (40), another format (41), a damaged page (42), a failing disk (43), or, only if the header
/// fits the file, lack of memory (11). Then nothing is written. 43 is reported only if the disk's count of failures rose. A failed write is 12, and is
/// reported only if the count of the writer's failed calls rose; then the writer is not used again.
pub fn show_text<D: Disk, W: Write>(
    alloc: Global,
    disk: D,
    look: Look,
    out: &mut CountedWriter<'_, W>,
) -> (Result<(), Failed>, D)
    // The lines are those of the network and the version that the content stands for.
    ensures answered { OnOk result.0 (IsStoreShown (D.honest disk) (D.content disk) look (W.contents (writer_of out.old)) (W.contents (writer_of out.new))) }
    ensures refused { IfErr result.0 (IsRefusedShow (D.honest disk) (D.content disk)) }
    ensures order { D.honest disk → IfErr result.0 (λ failed. IfNoMemory failed (HeaderFits (D.content disk))) }
    // The disk's count of failures rises if 43 is reported. At no other refusal does it rise, except perhaps at a failed write.
    ensures failed { CountsDevice (D.failures disk) (D.failures result.1) result.0 }
    // Nothing is written to the disk.
    ensures untouched { D.honest disk → StaysSame D.content D.left D.moment D.left_since disk result.1 }
    // No stop takes back what is printed.
    ensures at_rest { D.honest disk → OnOk result.0 (Only (D.content result.1) (D.left result.1)) }
    ensures honest { D.honest result.1 ↔ D.honest disk }
    ensures unwritten { IfErr result.0 (LeavesUnwritten (writer_of out.old) (writer_of out.new)) }
    ensures writes { KeepsWriter result.0 out.old out.new }
{
    let store = match open(alloc, disk) {
        Ok(store) => store,
        Err((refusal, disk)) => return (Err(Failed::Code(refusal)), disk),
    };
    let Ok(network) = SharedNetwork::of(alloc, store.network()) else {
        return (Err(Failed::Code(Refusal::OutOfMemory)), store.close());
    };
    let told = put_shown(out, &network, store.version(), look);
    (told, store.close())
}
