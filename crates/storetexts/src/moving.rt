// A store made from another one: a copy, or one of the previous format that is migrated.
ghost use Rattle.std.specs.Prelude.{◌≡◌, ◌≤◌, ◌↔◌, Err, None, [], OnOk, OnErr, IfOk, IfErr, MatchResult};
ghost use Rattle.std.specs.Io.KnownBytes.{Appends};
ghost use Rattle.std.specs.Option.{ForSome};
ghost use lib.Chars.{codes};
ghost use Rattle.disk.specs.Moments.{StaysSame};
ghost use Rattle.pages.specs.declared.content.Format.TheVariants.{One as one, Two as two};
ghost use Rattle.printing.specs.Counting.{failed_writes, writer_of, IsSameWriter};
ghost use Rattle.printing.specs.Failing.{CountsWrites, LeavesUnwritten};
ghost use Rattle.printing.specs.Replied.{number_line};
ghost use Rattle.printing.specs.Writers.{KeepsWriter};
ghost use Rattle.storetexts.specs.Moved.{CountsMove, IsMoved, IsOfMove, IsMoveRefusedForNew, IsMoveRefusedForOld, TellsMoved};
ghost use Rattle.storetexts.specs.Refused.{IfDone, IfNoDevice};

use disk::Disk;
use machine::Replied;
use printing::{CountedWriter, Failed, put_reply};
use roadnet::Refusal;
use std::alloc::Global;
use std::io::Write;
use store::{Store, copy, migrate};

/// Reports a store that was made, with `ok V`, where V is its version, and sends that; or returns why none was made. The disk is handed back.
fn tell_made<D: Disk, W: Write>(
    made: Result<Store<D>, (Refusal, D)>,
    out: &mut CountedWriter<'_, W>,
) -> (Result<(), Failed>, D)
    ensures disk { MatchResult made (λ store. result.1 ≡ store.disk) (λ refused. result.1 ≡ refused.1) }
    ensures told { IfOk made (λ store. OnOk result.0
        (Appends (W.contents (writer_of out.old)) (W.contents (writer_of out.new)) (number_line (codes "ok ") store.version))) }
    ensures refused { IfErr made (λ refused. result.0 ≡ Err (Failed.Code refused.0)) }
    ensures untold { OnErr made (out.new ≡ out.old) }
    ensures failed { OnOk made (IfErr result.0 (λ failed. failed ≡ Failed.Code Refusal.Write)) }
    ensures writes { OnOk made (CountsWrites (failed_writes out.old) (failed_writes out.new) result.0) }
    ensures same_writer { IsSameWriter out.old out.new }
{
    let store = match made {
        Ok(store) => store,
        Err((refusal, disk)) => return (Err(Failed::Code(refusal)), disk),
    };
    let version = store.version();
    let disk = store.close();
    if let Err(failed) = put_reply(out, &Replied::Durable { version }) {
        return (Err(failed), disk);
    }
    (out.flush(), disk)
}

/// Makes a store on the empty disk `new`, of the store on the disk `old`, at its version, with room for so many arcs and with so many journal pages, 1 to
/// 65,536. If one of the two is not given, it is that of the old store. Then it writes `ok V`, where V is the version, and sends it. The new disk is handed
/// back. The old one is only read, and stays as it is.
///
/// It is refused, in this order, if the new disk is not empty (46), if opening refuses the old store (40 to 42), if the room is below the number of arcs or
/// above 67,108,864 (9), or for lack of memory (11). A failing disk is reported as 43. Then, except at 43, the new disk is untouched, and nothing is
/// written. A failed write (12) is reported if the store exists but its line could not be written. After an `Err` the writer is not used again.
pub fn copy_text<O: Disk, D: Disk, W: Write>(
    alloc: Global,
    old: &mut O,
    new: D,
    room: Option<u64>,
    journal: Option<u32>,
    out: &mut CountedWriter<'_, W>,
) -> (Result<(), Failed>, D)
    requires journal { ForSome journal (λ pages. (1 ≤ pages) × (pages ≤ 65536)) }
    // The new content stands for the network of the old one, with its room, at its version, and a stop may leave nothing else.
    ensures made { O.honest old.old → D.honest new → IfDone result.0 (IsMoved two (O.content old.old) room journal (D.content result.1) (D.left result.1)) }
    ensures told { OnOk result.0 (TellsMoved two (O.honest old.old) (O.content old.old) (W.contents (writer_of out.old)) (W.contents (writer_of out.new))) }
    // Each refusal depends on one disk: 46 on the new one, which is empty at every other refusal except 43; 40 to 42, 9 and 11 on the old one. Whatever the
    // disks, it is one of these, or 43 or 12.
    ensures refused_for_new { D.honest new → IfErr result.0 (IsMoveRefusedForNew (D.content new)) }
    ensures refused_for_old { O.honest old.old → IfErr result.0 (IsMoveRefusedForOld two (O.content old.old) room) }
    ensures codes { IfErr result.0 IsOfMove }
    ensures empty { D.honest new → IfDone result.0 (D.content new ≡ []) }
    // If 43 is reported, one call of one of the disks has failed; otherwise none has.
    ensures counted { CountsMove (O.failures old.old) (O.failures old.new) (D.failures new) (D.failures result.1) result.0 }
    ensures untouched { O.honest old.old → StaysSame O.content O.left O.moment O.left_since old.old old.new }
    ensures same { D.honest new → IfErr result.0 (λ failed. IfNoDevice failed (StaysSame D.content D.left D.moment D.left_since new result.1)) }
    ensures unwritten { IfErr result.0 (LeavesUnwritten (writer_of out.old) (writer_of out.new)) }
    ensures honest { (O.honest old.new ↔ O.honest old.old) × (D.honest result.1 ↔ D.honest new) }
    ensures writes { KeepsWriter result.0 out.old out.new }
{
    let made = copy(alloc, old, new, room, journal);
    tell_made(made, out)
}

/// Makes a store on the empty disk `new`, of the store of format 1 on the disk `old`, at its version and with its journal pages, and with room for so many
/// arcs. If no number is given, it has room for the arcs that there are. Then it writes `ok V`, where V is the version, and sends it. The new disk is
/// handed back. The old one is only read, and stays as it is.
///
/// It is refused, in this order, if the new disk is not empty (46), if opening refuses the old store, where each format except 1 is another format (40 to
/// 42), if the room is below the number of arcs or above 67,108,864 (9), or for lack of memory (11). A failing disk is reported as 43. Then, except at 43,
/// the new disk is untouched, and nothing is written. A failed write (12) is reported if the store exists but its line could not be written. After an `Err`
/// the writer is not used again.
pub fn migrate_text<O: Disk, D: Disk, W: Write>(
    alloc: Global,
    old: &mut O,
    new: D,
    room: Option<u64>,
    out: &mut CountedWriter<'_, W>,
) -> (Result<(), Failed>, D)
    // The new content stands for the network of the old one, with its room, at its version, and a stop may leave nothing else.
    ensures made { O.honest old.old → D.honest new → IfDone result.0 (IsMoved one (O.content old.old) room None (D.content result.1) (D.left result.1)) }
    ensures told { OnOk result.0 (TellsMoved one (O.honest old.old) (O.content old.old) (W.contents (writer_of out.old)) (W.contents (writer_of out.new))) }
    // Each refusal depends on one disk: 46 on the new one, which is empty at every other refusal except 43; 40 to 42, 9 and 11 on the old one. Whatever the
    // disks, it is one of these, or 43 or 12.
    ensures refused_for_new { D.honest new → IfErr result.0 (IsMoveRefusedForNew (D.content new)) }
    ensures refused_for_old { O.honest old.old → IfErr result.0 (IsMoveRefusedForOld one (O.content old.old) room) }
    ensures codes { IfErr result.0 IsOfMove }
    ensures empty { D.honest new → IfDone result.0 (D.content new ≡ []) }
    // If 43 is reported, one call of one of the disks has failed; otherwise none has.
    ensures counted { CountsMove (O.failures old.old) (O.failures old.new) (D.failures new) (D.failures result.1) result.0 }
    ensures untouched { O.honest old.old → StaysSame O.content O.left O.moment O.left_since old.old old.new }
    ensures same { D.honest new → IfErr result.0 (λ failed. IfNoDevice failed (StaysSame D.content D.left D.moment D.left_since new result.1)) }
    ensures unwritten { IfErr result.0 (LeavesUnwritten (writer_of out.old) (writer_of out.new)) }
    ensures honest { (O.honest old.new ↔ O.honest old.old) × (D.honest result.1 ↔ D.honest new) }
    ensures writes { KeepsWriter result.0 out.old out.new }
{
    let made = migrate(alloc, old, new, room);
    tell_made(made, out)
}
