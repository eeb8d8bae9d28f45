// A store brought to a new map of its roads, in a new file.
ghost use Rattle.std.specs.Prelude.{◌≡◌, ◌≢◌, ◌⊎◌, ◌≤◌, ◌↔◌, [], OnOk, IfOk, IfErr, IfSome};
ghost use Rattle.std.specs.Io.KnownBytes.{Appends};
ghost use Rattle.dimacs.specs.Calling.{KeepsText};
ghost use Rattle.disk.specs.Moments.{StaysSame};
ghost use Rattle.printing.specs.Counting.{writer_of};
ghost use Rattle.printing.specs.Failing.{CountsFirst, CountsSecond, LeavesUnwritten};
ghost use Rattle.storetexts.specs.Created.{IsNewStore, IsOfMaking};
ghost use Rattle.storetexts.specs.Refused.{CountsDevice, IfDone, IfNoDevice, IfNotEmpty, IfNoMemory};
ghost use Rattle.storetexts.specs.Upgraded.{arc_lines, fit_pages, upgrade_lines, AreMapsOf, AreRefusedMaps, IsOfMaps};
ghost use Rattle.printing.specs.Writers.{KeepsWriter, Puts};
ghost use Rattle.storetexts.specs.Upgraded.{IsRefusedUpgrade, IsUpgradeBy, IsUpgradedStore, MayRefuseStored, TellsUpgrade};

use dimacs::{Text, read_gr};
use disk::Disk;
use printing::{CountedWriter, Failed, of_text, put_numbered};
use roadnet::{Network, Refusal};
use std::alloc::Global;
use std::io::Write;
use store::{create, open, with_given_room};
use upgrades::{Counts, upgraded};

const OLD: u8 = 0;

const NEW: u8 = 1;

/// The maps of two `.gr` texts: the old one, and the new one with room for so many arcs, if a number is given. Both texts are read completely, the old one
/// first, and the first fault is the one reported: `which` is 0 for the old map and 1 for the new one. Then a room that does not suit the new map is
/// refused with 9. A failed read is fault 10 of the text and line being read. It is reported only if the count of failed calls of that text rose. After an
/// `Err` the texts are not used again.
fn read_maps<P: Text, Q: Text>(
    alloc: Global,
    before: &mut P,
    after: &mut Q,
    room: Option<u64>,
) -> Result<(Network, Network), Failed>
    ensures maps { IfOk result (λ maps. IfSome (P.bytes before.old) (λ first. IfSome (Q.bytes after.old) (λ second. AreMapsOf first second room maps.0 maps.1))) }
    ensures bare { IfOk result (λ maps. maps.1.landmarks ≡ []) }
    ensures refused { IfErr result (λ failed. IfSome (P.bytes before.old) (λ first. IfSome (Q.bytes after.old)
        (λ second. AreRefusedMaps first second room (P.source before.new) (Q.source after.new) failed))) }
    ensures kinds { IfErr result IsOfMaps }
    ensures reads_old { KeepsText CountsFirst P.Text result before.old before.new }
    ensures reads_new { KeepsText CountsSecond Q.Text result after.old after.new }
{
    let old = of_text(OLD, read_gr(alloc, before))?;
    let map = of_text(NEW, read_gr(alloc, after))?;
    match with_given_room(map, room) {
        Ok(new) => Ok((old, new)),
        Err(refused) => Err(Failed::Code(refused.0)),
    }
}

/// The pages of a store's journal, brought into 1 to 65,536. On a disk that keeps the disk model they are in that range.
fn fit_pages(pages: u32) -> u32
    ensures some { 1 ≤ result }
    ensures few { result ≤ 65536 }
    ensures same { result ≡ fit_pages pages }
{
    if pages == 0 {
        return 1;
    }
    if pages > 65536 {
        return 65536;
    }
    pages
}

/// Opens the store on a disk. Returns its network, which was made from the map `old`, brought to the map `new`, which has no landmarks; then what became of
/// arcs and landmarks, and the pages of its journal. Nothing is written to the disk, which is handed back.
///
/// It is refused as opening is: for a file that is not a store (40), another format (41), a damaged page (42), a failing disk (43), or lack of memory (11);
/// then if the store's network was not made from the old map (52), and for lack of memory (11).
fn upgrade_stored<O: Disk>(
    alloc: Global,
    stored: O,
    old: &Network,
    new: Network,
) -> Result<(Network, Counts, u32, O), (Refusal, O)>
    requires { new.landmarks ≡ [] }
    ensures made { IfOk result (λ made. IsUpgradeBy (O.honest stored) (O.content stored) old.now new made.0 made.1 made.2) }
    ensures some { IfOk result (λ made. 1 ≤ made.2) }
    ensures few { IfOk result (λ made. made.2 ≤ 65536) }
    ensures refused { IfErr result (λ refused. MayRefuseStored (O.honest stored) (O.content stored) old.now refused.0) }
    ensures untouched { O.honest stored → IfOk result (λ made. StaysSame O.content O.left O.moment O.left_since stored made.3) }
    ensures handed_back { O.honest stored → IfErr result (λ refused. StaysSame O.content O.left O.moment O.left_since stored refused.1) }
    ensures honest { (IfOk result (λ made. O.honest made.3 ↔ O.honest stored)) × (IfErr result (λ refused. O.honest refused.1 ↔ O.honest stored)) }
{
    let store = match open(alloc, stored) {
        Ok(store) => store,
        Err((refusal, stored)) => return Err((refusal, stored)),
    };
    let journal_pages = fit_pages(store.journal_pages());
    match upgraded(alloc, store.network(), old, new) {
        Ok((network, counts)) => Ok((network, counts, journal_pages, store.close())),
        Err(refusal) => Err((refusal, store.close())),
    }
}

/// `kept K`, `added A`, `gone G`, `doubtful D`
fn put_arc_counts<W: Write>(out: &mut CountedWriter<'_, W>, counts: Counts) -> Result<(), Failed>
    ensures { Puts W.contents (arc_lines counts) result out.old out.new }
{
    put_numbered(out, b"kept ", counts.kept)?;
    put_numbered(out, b"added ", counts.added)?;
    put_numbered(out, b"gone ", counts.gone)?;
    put_numbered(out, b"doubtful ", counts.doubtful)
}

/// The counts of arcs, and then `landmarks gone L` and `ok 0`.
fn put_upgrade<W: Write>(out: &mut CountedWriter<'_, W>, counts: Counts) -> Result<(), Failed>
    ensures { Puts W.contents (upgrade_lines counts) result out.old out.new }
{
    put_arc_counts(out, counts)?;
    put_numbered(out, b"landmarks gone ", counts.landmarks_gone)?;
    put_numbered(out, b"ok ", 0)
}

/// Makes a store of the network on an empty disk, with so many journal pages, 1 to 65,536, at version 0. Then it writes the counts' lines and `ok 0`, and
/// sends them. The disk is handed back.
///
/// It is refused if the disk is not empty (46), if the disk fails (43), or for lack of memory (11). Then nothing is written to `out`, and at 46 and 11 the
/// disk is as it was. A failed write is 12; then the store exists.
fn make_upgraded<D: Disk, W: Write>(
    alloc: Global,
    disk: D,
    network: &Network,
    journal_pages: u32,
    counts: Counts,
    out: &mut CountedWriter<'_, W>,
) -> (Result<(), Failed>, D)
    requires some { 1 ≤ journal_pages }
    requires few { journal_pages ≤ 65536 }
    ensures made { D.honest disk → IfDone result.0 (IsNewStore network.now journal_pages (D.content result.1) (D.left result.1)) }
    ensures empty { D.honest disk → IfDone result.0 (D.content disk ≡ []) }
    ensures refused { IfErr result.0 IsOfMaking }
    ensures not_empty { D.honest disk → IfErr result.0 (λ failed. IfNotEmpty failed (D.content disk ≢ [])) }
    ensures order { D.honest disk → IfErr result.0 (λ failed. IfNoMemory failed (D.content disk ≡ [])) }
    ensures untouched { D.honest disk → IfErr result.0 (λ failed. IfNoDevice failed (StaysSame D.content D.left D.moment D.left_since disk result.1)) }
    ensures failed { CountsDevice (D.failures disk) (D.failures result.1) result.0 }
    ensures honest { D.honest result.1 ↔ D.honest disk }
    ensures told { OnOk result.0 (Appends (W.contents (writer_of out.old)) (W.contents (writer_of out.new)) (upgrade_lines counts)) }
    ensures unwritten { IfErr result.0 (LeavesUnwritten (writer_of out.old) (writer_of out.new)) }
    ensures writes { KeepsWriter result.0 out.old out.new }
{
    let store = match create(alloc, disk, network, journal_pages) {
        Ok(store) => store,
        Err((refusal, disk)) => return (Err(Failed::Code(refusal)), disk),
    };
    let disk = store.close();
    if let Err(failed) = put_upgrade(out, counts) {
        return (Err(failed), disk);
    }
    (out.flush(), disk)
}

/// Makes a store on the empty disk `new`, of the store on the disk `stored`, brought from the old map, from which that was made, to the new one, with room
/// for so many arcs, if a number is given, and with as many journal pages. Then it writes the lines about what became of arcs and landmarks, and `ok 0`,
/// and sends them. Both disks are handed back. The stored one is only read, and stays as it is.
///
/// It is refused, in this order, for a fault of the text of the old map, `which` 0, or of the new one, `which` 1; for a room that does not suit the new map
/// (9); if opening refuses the store (40 to 42); if the store was not made from the old map (52); or if the new disk is not empty (46). A failing disk is
/// reported as 43, lack of memory as 11. Then nothing is written, and, except at 43, the new disk is untouched. A failed write (12) is reported if the
/// store exists but its lines could not be written. After an `Err` the texts and the writer are not used again.
pub fn upgrade_text<O: Disk, D: Disk, P: Text, Q: Text, W: Write>(
    alloc: Global,
    stored: O,
    before: &mut P,
    after: &mut Q,
    new: D,
    room: Option<u64>,
    out: &mut CountedWriter<'_, W>,
) -> (Result<(), Failed>, O, D)
    ensures made { O.honest stored → D.honest new → IfDone result.0
        (IfSome (P.bytes before.old) (λ first. IfSome (Q.bytes after.old)
        (λ second. IsUpgradedStore (O.honest stored) (O.content stored) first second room (D.content result.2) (D.left result.2)))) }
    ensures told { OnOk result.0 (IfSome (P.bytes before.old) (λ first. IfSome (Q.bytes after.old)
        (λ second. TellsUpgrade (O.honest stored) (O.content stored) first second room (W.contents (writer_of out.old)) (W.contents (writer_of out.new))))) }
    ensures refused { IfErr result.0 (λ failed. IfSome (P.bytes before.old) (λ first. IfSome (Q.bytes after.old)
        (λ second. IsRefusedUpgrade (O.honest stored) (O.content stored) first second room
        (P.source before.new) (Q.source after.new) failed))) }
    ensures empty { D.honest new → IfDone result.0 (D.content new ≡ []) }
    // 46 comes only if the new disk is not empty; 11 if it is empty, or before any call of it.
    ensures not_empty { D.honest new → IfErr result.0 (λ failed. IfNotEmpty failed (D.content new ≢ [])) }
    ensures order { D.honest new → IfErr result.0 (λ failed. IfNoMemory failed ((D.content new ≡ []) ⊎ (result.2 ≡ new))) }
    ensures untouched { O.honest stored → StaysSame O.content O.left O.moment O.left_since stored result.1 }
    ensures same { D.honest new → IfErr result.0 (λ failed. IfNoDevice failed (StaysSame D.content D.left D.moment D.left_since new result.2)) }
    ensures honest { (O.honest result.1 ↔ O.honest stored) × (D.honest result.2 ↔ D.honest new) }
    ensures unwritten { IfErr result.0 (LeavesUnwritten (writer_of out.old) (writer_of out.new)) }
    ensures reads_old { KeepsText CountsFirst P.Text result.0 before.old before.new }
    ensures reads_new { KeepsText CountsSecond Q.Text result.0 after.old after.new }
    ensures writes { KeepsWriter result.0 out.old out.new }
{
    let maps = match read_maps(alloc, before, after, room) {
        Ok(maps) => maps,
        Err(failed) => return (Err(failed), stored, new),
    };
    let (old, map) = maps;
    let found = match upgrade_stored(alloc, stored, &old, map) {
        Ok(found) => found,
        Err((refusal, stored)) => return (Err(Failed::Code(refusal)), stored, new),
    };
    let (network, counts, journal_pages, stored) = found;
    let (told, new) = make_upgraded(alloc, new, &network, journal_pages, counts, out);
    (told, stored, new)
}
