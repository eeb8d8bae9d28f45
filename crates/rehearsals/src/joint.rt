//! The joint form: a network, a line `run`, and a script.
ghost use Rattle.std.specs.Prelude.{◌≡◌, IfSome, IfOk, OnOk, IfErr};
ghost use Rattle.std.specs.Option.{ForSome};
ghost use Rattle.rows.specs.Kept.{IsWidth};
ghost use Rattle.dimacs.specs.Counts.{failed_calls, reader_of, IsSameReader};
ghost use Rattle.printing.specs.Counting.{writer_of};
ghost use Rattle.printing.specs.Failing.{CountsReads, IsOfText};
ghost use Rattle.printing.specs.Widths.{told_width};
ghost use Rattle.printing.specs.Writers.{KeepsWriter};
ghost use Rattle.rehearsals.specs.Joint.{IsScriptAnswered, IsRehearsalRefused, ReadsJoint};
ghost use Rattle.rehearsals.specs.Texts.{IsOfRehearsal, UnwrittenOfText};

use crate::running::run_events;
use dimacs::{Counted, read_gr_before_run};
use disk::Pick;
use machine::Event;
use printing::{CountedWriter, Done, Failed, of_text};
use roadnet::Network;
use scripts::read_script;
use std::alloc::Global;
use std::io::{BufRead, Write};
use std::thread::Threads;

const NETWORK: u8 = 0;

const SCRIPT: u8 = 1;

/// How many pages the journal of a joint text's store has.
const JOURNAL_PAGES: u32 = 64;

/// What a joint text says: a network, and the events of its script.
#[derive(Drop)]
struct Joint {
    network: Network,
    events: Vec<Event<Pick>>,
}

/// The network before the first line `run`, and the events after it.
fn read_joint<R: BufRead>(alloc: Global, reader: &mut Counted<'_, R>) -> Result<Joint, Failed>
    ensures read { IfSome (R.remaining (reader_of reader.old))
        (λ text. ReadsJoint text (R.remaining (reader_of reader.new)) result) }
    ensures texts { IfErr result IsOfText }
    ensures codes { IfErr result IsOfRehearsal }
    ensures counts { CountsReads (failed_calls reader.old) (failed_calls reader.new) result }
    ensures same { IsSameReader reader.old reader.new }
{
    let (network, at_run) = of_text(NETWORK, read_gr_before_run(alloc, reader))?;
    if !at_run {
        let events = Vec::new(alloc);
        return Ok(Joint { network, events });
    }
    let events = of_text(SCRIPT, read_script(alloc, reader))?;
    Ok(Joint { network, events })
}

/// Reads a joint text, runs the events of its script on a new store of its network, in memory and with 64 journal pages, and writes the lines of the
/// replies, and nothing else. Both texts are read completely before anything is run or written. The first fault is the one reported. Without a line `run`
/// the script is empty.
///
/// `delta`, 1 to 2147483647, is the width of the buckets of each view's searches. Every width gives the same answers. Without one it is the network's
/// default. An event that finds no memory is answered with `no 11`. If the store cannot be made (11, or 43 if the disk has no memory), nothing is written.
/// If the run ends early (11 or 43), the replies so far are written. A failed read is fault 10 of the text and line being read, and a failed write is 12.
/// Both are reported only if the count of failed calls of the reader or of the writer rose. After an `Err` the reader and the writer are not used again.
pub fn joint_text<T: Threads, R: BufRead, W: Write>(
    rt: &T,
    alloc: Global,
    reader: &mut Counted<'_, R>,
    delta: Option<u32>,
    out: &mut CountedWriter<'_, W>,
) -> Result<Done, Failed>
    requires { ForSome delta IsWidth }
    ensures width { IfOk result (λ done. told_width done ≡ delta) }
    ensures answered { OnOk result (IfSome (R.remaining (reader_of reader.old))
        (λ text. IsScriptAnswered text (W.contents (writer_of out.old)) (W.contents (writer_of out.new)))) }
    ensures refused { IfErr result (λ failed. IfSome (R.remaining (reader_of reader.old))
        (λ text. IsRehearsalRefused text (R.remaining (reader_of reader.new)) (W.contents (writer_of out.old)) (W.contents (writer_of out.new)) failed)) }
    ensures codes { IfErr result IsOfRehearsal }
    ensures unwritten { IfErr result (UnwrittenOfText (writer_of out.old) (writer_of out.new)) }
    ensures reads { CountsReads (failed_calls reader.old) (failed_calls reader.new) result }
    ensures writes { KeepsWriter result out.old out.new }
    ensures same_reader { IsSameReader reader.old reader.new }
{
    let joint = read_joint(alloc, reader)?;
    run_events(
        rt,
        alloc,
        &joint.network,
        JOURNAL_PAGES,
        delta,
        &joint.events,
        out,
    )
}
