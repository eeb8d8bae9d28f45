// The pairs between the nodes of two texts, asked of a store.
ghost use Rattle.std.specs.Prelude.{◌≡◌, ◌↔◌, OnOk, IfOk, IfErr, IfSome};
ghost use Rattle.std.specs.Option.{ForSome};
ghost use Rattle.dimacs.specs.Calling.{KeepsText};
ghost use Rattle.disk.specs.Contents.{Only};
ghost use Rattle.disk.specs.Moments.{StaysSame};
ghost use Rattle.rows.specs.Kept.{IsWidth};
ghost use Rattle.printing.specs.Counting.{writer_of};
ghost use Rattle.printing.specs.Failing.{CountsFirst, CountsSecond, LeavesUnwritten};
ghost use Rattle.printing.specs.Widths.{told_width};
ghost use Rattle.printing.specs.Writers.{KeepsWriter};
ghost use Rattle.querytexts.specs.Batch.{AnswersAll};
ghost use Rattle.querytexts.specs.Once.{Answers};
ghost use Rattle.querytexts.specs.Table.{pairs_between};
ghost use Rattle.store.specs.Opening.{HeaderFits};
ghost use Rattle.storetexts.specs.Asked.{IsTableAsked, IsRefusedStoreTable};
ghost use Rattle.storetexts.specs.Refused.{CountsDevice, IfNoMemory, IsOfTwoTexts};

use dimacs::{Text, read_nodes};
use disk::Disk;
use printing::{CountedWriter, Done, Failed, of_text};
use querytexts::answer_table;
use std::alloc::Global;
use std::io::Write;
use std::thread::Threads;
use store::{Store, open};

const SOURCES: u8 = 0;

const TARGETS: u8 = 1;

/// Writes the version of the store and a right answer to each pair of a source and a target, and hands the disk back.
fn table_of<T: Threads, D: Disk, W: Write>(
    rt: &T,
    alloc: Global,
    store: Store<D>,
    sources: &[u32],
    targets: &[u32],
    delta: Option<u32>,
    out: &mut CountedWriter<'_, W>,
) -> (Result<Done, Failed>, D)
    requires { ForSome delta IsWidth }
    ensures answered { OnOk result.0
        (AnswersAll store.network store.version (pairs_between sources.now targets.now) (W.contents (writer_of out.old)) (W.contents (writer_of out.new))) }
    ensures answers { Answers delta result.0 out.old out.new }
    ensures disk { result.1 ≡ store.disk }
{
    let answered = answer_table(
        rt,
        alloc,
        store.network(),
        store.version(),
        delta,
        sources,
        targets,
        out,
    );
    (answered, store.close())
}

/// Opens the store on a disk, and writes its version and a right answer to each pair of a node that one `.ss` text lists and one that another lists, source
/// by source, in the order of the lines of the two texts. The store is opened first, then the texts are read completely, the sources before the targets,
/// then the answers are written. Nodes are judged by the store's network. Nothing is written to the disk, which is handed back.
///
/// It is refused as opening is: for a file that is not a store (40), another format (41), a damaged page (42), a failing disk (43), or lack of memory (11);
/// then for a fault of the sources, `which` 0, then for one of the targets, `which` 1; then for lack of memory for all replies (11). Then nothing is
/// written. 43 is reported only if the disk's count of failures rose. A failed read is fault 10 of the text and line being read, and a failed write is 12.
/// Both are reported only if the count of failed calls of that text or of the writer rose. After an `Err` the texts and the writer are not used again.
///
/// `delta` is the width of a search's buckets, 1 to 2147483647. Every width gives the same answers. Without one it is the network's default. Each source is
/// searched once, or each target if there are fewer targets, as by `answer_table`.
pub fn ask_table_text<T: Threads, D: Disk, P: Text, Q: Text, W: Write>(
    rt: &T,
    alloc: Global,
    disk: D,
    sources: &mut P,
    targets: &mut Q,
    delta: Option<u32>,
    out: &mut CountedWriter<'_, W>,
) -> (Result<Done, Failed>, D)
    requires { ForSome delta IsWidth }
    ensures width { IfOk result.0 (λ done. told_width done ≡ delta) }
    // On any disk the answers are right in the network of the store that was opened.
    ensures answered { OnOk result.0 (IfSome (P.bytes sources.old) (λ from. IfSome (Q.bytes targets.old)
        (λ to. IsTableAsked (D.honest disk) (D.content disk) from to (W.contents (writer_of out.old)) (W.contents (writer_of out.new))))) }
    ensures refused { IfErr result.0 (λ failed. IfSome (P.bytes sources.old) (λ from. IfSome (Q.bytes targets.old)
        (λ to. IsRefusedStoreTable (D.honest disk) (D.content disk) from to (P.source sources.new) (Q.source targets.new) failed))) }
    ensures codes { IfErr result.0 IsOfTwoTexts }
    // Lack of memory is reported only if the header fits the file.
    ensures order { D.honest disk → IfErr result.0 (λ failed. IfNoMemory failed (HeaderFits (D.content disk))) }
    // No stop takes back what is answered.
    ensures at_rest { D.honest disk → OnOk result.0 (Only (D.content result.1) (D.left result.1)) }
    // The disk's count of failures rises if 43 is reported. At no other refusal does it rise, except perhaps at a failed write.
    ensures failed { CountsDevice (D.failures disk) (D.failures result.1) result.0 }
    // Nothing is written to the disk.
    ensures untouched { D.honest disk → StaysSame D.content D.left D.moment D.left_since disk result.1 }
    ensures honest { D.honest result.1 ↔ D.honest disk }
    ensures unwritten { IfErr result.0 (LeavesUnwritten (writer_of out.old) (writer_of out.new)) }
    ensures reads_sources { KeepsText CountsFirst P.Text result.0 sources.old sources.new }
    ensures reads_targets { KeepsText CountsSecond Q.Text result.0 targets.old targets.new }
    ensures writes { KeepsWriter result.0 out.old out.new }
{
    let store = match open(alloc, disk) {
        Ok(store) => store,
        Err((refusal, disk)) => return (Err(Failed::Code(refusal)), disk),
    };
    let count = store.network().nodes();
    let sources_read = read_nodes(alloc, sources, count);
    let from = match of_text(SOURCES, sources_read) {
        Ok(from) => from,
        Err(failed) => return (Err(failed), store.close()),
    };
    let targets_read = read_nodes(alloc, targets, count);
    let to = match of_text(TARGETS, targets_read) {
        Ok(to) => to,
        Err(failed) => return (Err(failed), store.close()),
    };
    table_of(rt, alloc, store, &from, &to, delta, out)
}
