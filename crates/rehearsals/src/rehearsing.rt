//! A network's text, and a script that is run on it.
ghost use Rattle.std.specs.Prelude.{◌≡◌, ◌≤◌, OnOk, IfOk, IfErr, IfSome};
ghost use Rattle.std.specs.Option.{ForSome};
ghost use Rattle.rows.specs.Kept.{IsWidth};
ghost use Rattle.dimacs.specs.Calling.{KeepsText};
ghost use Rattle.dimacs.specs.Lines.{rows};
ghost use Rattle.printing.specs.Counting.{writer_of};
ghost use Rattle.printing.specs.Failing.{CountsFirst, CountsSecond};
ghost use Rattle.printing.specs.Widths.{told_width};
ghost use Rattle.printing.specs.Writers.{KeepsWriter};
ghost use Rattle.roadnet.specs.Net.{IsRoomFor};
ghost use Rattle.store.specs.Migrating.{room_of, roomed};
ghost use Rattle.rehearsals.specs.Texts.{IsRehearsed, IsRefusedRehearsal, IsOfRehearsal, UnwrittenOfText};

use crate::running::run_events;
use dimacs::{Text, read_gr};
use printing::{CountedWriter, Done, Failed, of_text};
use roadnet::{Network, Refusal};
use scripts::read_script;
use std::alloc::Global;
use std::io::Write;
use std::thread::Threads;
use store::with_given_room;

const NETWORK: u8 = 0;

const SCRIPT: u8 = 1;

/// The network with the given room, if one is given. It fails with 9 if the room does not suit the network.
fn roomed(network: Network, room: Option<u64>) -> Result<Network, Failed>
    ensures ok { IfOk result (λ net. net ≡ roomed network room) }
    ensures refused { IfErr result (λ failed. (failed ≡ Failed.Code Refusal.TooLarge) × ¬ IsRoomFor network (room_of network room)) }
{
    match with_given_room(network, room) {
        Ok(network) => Ok(network),
        Err((refusal, _)) => Err(Failed::Code(refusal)),
    }
}

/// Runs the events of a script on a new store, in memory, of the network of a `.gr` text, and writes the lines of the replies, and nothing else. Both texts
/// are read completely before anything is run or written, the network first. The first fault is the one reported.
///
/// The store has `journal_pages` pages in its journal, 1 to 65,536, and room for `room` arcs; without a room, for those that there are. After the texts'
/// faults, a room below the number of arcs or above 67,108,864 is refused with 9, and nothing is run. `delta`, 1 to 2147483647, is the width of the buckets
/// of each view's searches. Every width gives the same answers. Without one it is the network's default. An event that finds no memory is answered with `no
/// 11`. If the store cannot be made (11, or 43 if the disk has no memory), nothing is written. If the run ends early (11 or 43), the replies so far are
/// written. A failed read is fault 10 of the text and line being read, and a failed write is 12. Both are reported only if the count of failed calls of
/// that text or of the writer rose. After an `Err` the texts and the writer are not used again.
pub fn rehearse_text<T: Threads, N: Text, S: Text, W: Write>(
    rt: &T,
    alloc: Global,
    gr: &mut N,
    script: &mut S,
    journal_pages: u32,
    room: Option<u64>,
    delta: Option<u32>,
    out: &mut CountedWriter<'_, W>,
) -> Result<Done, Failed>
    requires width { ForSome delta IsWidth }
    requires some { 1 ≤ journal_pages }
    requires few { journal_pages ≤ 65536 }
    ensures width { IfOk result (λ done. told_width done ≡ delta) }
    ensures answered { OnOk result (IfSome (N.bytes gr.old) (λ network. IfSome (S.bytes script.old)
        (λ events. IsRehearsed journal_pages room (rows network) (rows events) (W.contents (writer_of out.old)) (W.contents (writer_of out.new))))) }
    ensures refused { IfErr result (λ failed. IfSome (N.bytes gr.old) (λ network. IfSome (S.bytes script.old)
        (λ events. IsRefusedRehearsal journal_pages room network events (N.source gr.new) (S.source script.new)
        (W.contents (writer_of out.old)) (W.contents (writer_of out.new)) failed))) }
    ensures codes { IfErr result IsOfRehearsal }
    ensures unwritten { IfErr result (UnwrittenOfText (writer_of out.old) (writer_of out.new)) }
    ensures reads_network { KeepsText CountsFirst N.Text result gr.old gr.new }
    ensures reads_script { KeepsText CountsSecond S.Text result script.old script.new }
    ensures writes { KeepsWriter result out.old out.new }
{
    let network = of_text(NETWORK, read_gr(alloc, gr))?;
    let events = of_text(SCRIPT, read_script(alloc, script))?;
    let made = roomed(network, room)?;
    run_events(rt, alloc, &made, journal_pages, delta, &events, out)
}
