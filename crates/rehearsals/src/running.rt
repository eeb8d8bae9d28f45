//! Events run on a new store, and the replies to them.
ghost use Rattle.std.specs.Prelude.{◌≡◌, ◌≤◌, [], OnOk, IfOk, IfErr, IfSome};
ghost use Rattle.std.specs.Option.{ForSome};
ghost use Rattle.disk.specs.Contents.{Rose};
ghost use Rattle.pagereader.specs.Outcomes.{failures_with};
ghost use Rattle.rows.specs.Kept.{IsWidth};
ghost use Rattle.store.specs.Opening.{IsPassing};
ghost use Rattle.lives.specs.Failures.{EndsAsTold};
ghost use Rattle.lives.specs.Running.{width_of};
ghost use Rattle.printing.specs.Counting.{failed_writes, writer_of, IsSameWriter};
ghost use Rattle.printing.specs.Failing.{CountsWrites, IfDevice};
ghost use Rattle.printing.specs.Widths.{told_width};
ghost use Rattle.printing.specs.Writers.{KeepsWriter};
ghost use Rattle.rehearsals.specs.Rehearsed.{RepliesTo, Rehearses, IsBrokenOff};

use disk::{MemDisk, Pick, Stoppable};
use lives::{Rehearsal, rehearse};
use machine::Event;
use printing::{CountedWriter, Done, Failed, put_replies};
use roadnet::{Network, Refusal};
use std::alloc::Global;
use std::io::Write;
use std::thread::Threads;
use store::create;

/// Runs the events on a new store of the network on an empty disk, with so many journal pages. If there is no store, nothing is run, and the disk is handed
/// back. If the disk keeps the disk model, only lack of memory (11) or its failure (43) can keep a store from being made on it.
fn rehearsed<T: Threads, D: Stoppable>(
    rt: &T,
    alloc: Global,
    disk: D,
    network: &Network,
    journal_pages: u32,
    delta: Option<u32>,
    events: &[Event<Pick>],
) -> Result<Rehearsal<D>, (Refusal, D)>
    requires width { ForSome delta IsWidth }
    requires some { 1 ≤ journal_pages }
    requires few { journal_pages ≤ 65536 }
    ensures run { D.honest disk → IfOk result (λ run. RepliesTo network.now journal_pages events.now run.replies.items run.ended) }
    ensures ended { D.honest disk → IfOk result (λ run. IfSome run.ended IsPassing) }
    ensures width { IfOk result (λ run. width_of run ≡ delta) }
    ensures refused { D.honest disk → D.content disk ≡ [] → IfErr result (λ refused. IsPassing refused.0) }
    // On any disk its count of failures rises by those that the replies report, and by one more if the run ends with 43.
    ensures counted { IfOk result (λ run. EndsAsTold events.now run.replies.items run.ended (D.failures disk) (D.failures run.disk)) }
    ensures unmade { IfErr result (λ refused. D.failures refused.1 ≡ failures_with refused.0 (D.failures disk)) }
{
    let store = create(alloc, disk, network, journal_pages)?;
    Ok(rehearse(rt, alloc, store, delta, events))
}

/// Runs the events on a new store of the network on an empty disk, with so many journal pages, and writes the lines of the replies to them, and nothing
/// else. If the run ends early, the replies so far are written, and its refusal is returned: 11 or 43. A failed write is 12; then an unknown part was
/// written. 43 is reported only if the disk's count of failures rose. The disk is handed back.
fn run_events_on<T: Threads, D: Stoppable, W: Write>(
    rt: &T,
    alloc: Global,
    disk: D,
    network: &Network,
    journal_pages: u32,
    delta: Option<u32>,
    events: &[Event<Pick>],
    out: &mut CountedWriter<'_, W>,
) -> (Result<Done, Failed>, D)
    requires width { ForSome delta IsWidth }
    requires some { 1 ≤ journal_pages }
    requires few { journal_pages ≤ 65536 }
    ensures width { IfOk result.0 (λ done. told_width done ≡ delta) }
    ensures answered { D.honest disk → OnOk result.0
        (Rehearses network.now journal_pages events.now None (W.contents (writer_of out.old)) (W.contents (writer_of out.new))) }
    ensures refused { D.honest disk → D.content disk ≡ [] → IfErr result.0
        (IsBrokenOff network.now journal_pages events.now (W.contents (writer_of out.old)) (W.contents (writer_of out.new))) }
    ensures failed { IfErr result.0 (λ failed. IfDevice failed (Rose (D.failures disk) (D.failures result.1))) }
    ensures writes { D.honest disk → D.content disk ≡ [] → CountsWrites (failed_writes out.old) (failed_writes out.new) result.0 }
    ensures same { IsSameWriter out.old out.new }
{
    let run = match rehearsed(rt, alloc, disk, network, journal_pages, delta, events) {
        Ok(run) => run,
        Err((refusal, disk)) => return (Err(Failed::Code(refusal)), disk),
    };
    let done = Done::by(&run);
    let Rehearsal {
        history: _,
        replies,
        ended,
        disk,
        ..
    } = run;
    if let Err(failed) = put_replies(out, &replies) {
        return (Err(failed), disk);
    }
    if let Err(failed) = out.flush() {
        return (Err(failed), disk);
    }
    match ended {
        None => (Ok(done), disk),
        Some(refusal) => (Err(Failed::Code(refusal)), disk),
    }
}

/// The same on an empty disk in memory, which belongs to the call. It keeps the disk model, and nothing is said of it afterwards.
pub fn run_events<T: Threads, W: Write>(
    rt: &T,
    alloc: Global,
    network: &Network,
    journal_pages: u32,
    delta: Option<u32>,
    events: &[Event<Pick>],
    out: &mut CountedWriter<'_, W>,
) -> Result<Done, Failed>
    requires width { ForSome delta IsWidth }
    requires some { 1 ≤ journal_pages }
    requires few { journal_pages ≤ 65536 }
    ensures width { IfOk result (λ done. told_width done ≡ delta) }
    ensures answered { OnOk result (Rehearses network.now journal_pages events.now None (W.contents (writer_of out.old)) (W.contents (writer_of out.new))) }
    ensures refused { IfErr result
        (IsBrokenOff network.now journal_pages events.now (W.contents (writer_of out.old)) (W.contents (writer_of out.new))) }
    ensures writes { KeepsWriter result out.old out.new }
{
    let disk = MemDisk::new(alloc);
    let (ended, _disk) = run_events_on(rt, alloc, disk, network, journal_pages, delta, events, out);
    ended
}
