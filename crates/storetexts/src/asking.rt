// The pairs of a text, asked of a store.
ghost use Rattle.std.specs.Prelude.{◌≡◌, ◌↔◌, OnOk, IfOk, IfErr, IfSome};
ghost use Rattle.std.specs.Option.{ForSome};
ghost use Rattle.dimacs.specs.Calling.{KeepsText};
ghost use Rattle.disk.specs.Contents.{Only};
ghost use Rattle.disk.specs.Moments.{StaysSame};
ghost use Rattle.rows.specs.Kept.{IsWidth};
ghost use Rattle.printing.specs.Counting.{writer_of};
ghost use Rattle.printing.specs.Failing.{CountsReads, LeavesUnwritten};
ghost use Rattle.printing.specs.Widths.{told_width};
ghost use Rattle.printing.specs.Writers.{KeepsWriter};
ghost use Rattle.querytexts.specs.Route.{AnswersAs};
ghost use Rattle.querytexts.specs.Once.{Answers};
ghost use Rattle.store.specs.Opening.{HeaderFits};
ghost use Rattle.storetexts.specs.Asked.{IsStoreAsked, IsRefusedAsk};
ghost use Rattle.storetexts.specs.Refused.{CountsDevice, IfNoMemory, IsOfStore};

use dimacs::{Pair, Text, read_p2p};
use disk::Disk;
use printing::{CountedWriter, Done, Failed, of_text};
use querytexts::{answer_pairs, answer_routes};
use roadnet::Network;
use std::alloc::Global;
use std::io::Write;
use std::thread::Threads;
use store::{Store, open};

const PAIRS: u8 = 0;

/// Writes the network's version and a right answer to each pair: a route, or a length.
fn answer_as<T: Threads, W: Write>(
    rt: &T,
    alloc: Global,
    network: &Network,
    version: u64,
    routes: bool,
    delta: Option<u32>,
    pairs: &[Pair],
    out: &mut CountedWriter<'_, W>,
) -> Result<Done, Failed>
    requires { ForSome delta IsWidth }
    ensures answered { OnOk result (AnswersAs routes network.now version pairs.now (W.contents (writer_of out.old)) (W.contents (writer_of out.new))) }
    ensures answers { Answers delta result out.old out.new }
{
    if routes {
        answer_routes(rt, alloc, network, version, delta, pairs, out)
    } else {
        answer_pairs(rt, alloc, network, version, delta, pairs, out)
    }
}

/// Writes the version of the store and a right answer to each pair, a route or a length, and hands the disk back.
fn ask_opened<T: Threads, D: Disk, W: Write>(
    rt: &T,
    alloc: Global,
    store: Store<D>,
    pairs: &[Pair],
    routes: bool,
    delta: Option<u32>,
    out: &mut CountedWriter<'_, W>,
) -> (Result<Done, Failed>, D)
    requires { ForSome delta IsWidth }
    ensures answered { OnOk result.0
        (AnswersAs routes store.network store.version pairs.now (W.contents (writer_of out.old)) (W.contents (writer_of out.new))) }
    ensures answers { Answers delta result.0 out.old out.new }
    ensures disk { result.1 ≡ store.disk }
{
    let (network, version) = (store.network(), store.version());
    let answered = answer_as(rt, alloc, network, version, routes, delta, pairs, out);
    (answered, store.close())
}

/// Opens the store on a disk, and writes its version and a right answer to each pair of a `.p2p` text, in their order. The store is opened first, then the
/// text is read completely, then the answers are written. Nodes of the pairs are judged by the store's network. Nothing is written to the disk, which is
/// handed back.
///
/// It is refused as opening is: for a file that is not a store (40), another format (41), a damaged page (42), a failing disk (43), or lack of memory (11);
/// then for a fault of the text, `which` 0; then for lack of memory for all replies (11). Then nothing is written. 43 is reported only if the disk's count
/// of failures rose. A failed read is fault 10 of the line being read, and a failed write is 12. Both are reported only if the count of failed calls of the
/// text or of the writer rose. After an `Err` the text and the writer are not used again.
///
/// `delta` is the width of a search's buckets, 1 to 2147483647. Every width gives the same answers. Without one it is the network's default. Each source is
/// searched once, or each target if there are fewer targets, as by `answer_pairs`. With `routes` the answer to a pair is the arcs of a shortest walk, as by
/// `answer_routes`.
pub fn ask_text<T: Threads, D: Disk, S: Text, W: Write>(
    rt: &T,
    alloc: Global,
    disk: D,
    p2p: &mut S,
    routes: bool,
    delta: Option<u32>,
    out: &mut CountedWriter<'_, W>,
) -> (Result<Done, Failed>, D)
    requires { ForSome delta IsWidth }
    ensures width { IfOk result.0 (λ done. told_width done ≡ delta) }
    // On any disk the answers are right in the network of the store that was opened.
    ensures answered { OnOk result.0 (IfSome (S.bytes p2p.old)
        (λ text. IsStoreAsked routes (D.honest disk) (D.content disk) text (W.contents (writer_of out.old)) (W.contents (writer_of out.new)))) }
    ensures refused { IfErr result.0 (λ failed. IfSome (S.bytes p2p.old) (λ text. IsRefusedAsk (D.honest disk) (D.content disk) text (S.source p2p.new) failed)) }
    ensures codes { IfErr result.0 IsOfStore }
    // Lack of memory is reported only if the header fits the file.
    ensures order { D.honest disk → IfErr result.0 (λ failed. IfNoMemory failed (HeaderFits (D.content disk))) }
    // No stop takes back what is answered.
    ensures at_rest { D.honest disk → OnOk result.0 (Only (D.content result.1) (D.left result.1)) }
    // The disk's count of failures rises if 43 is reported. At no other refusal does it rise, except perhaps at a failed write.
    ensures failed { CountsDevice (D.failures disk) (D.failures result.1) result.0 }
    // Nothing is written to the disk.
    ensures untouched { D.honest disk → StaysSame D.content D.left D.moment D.left_since disk result.1 }
    ensures honest { D.honest result.1 ↔ D.honest disk }
    ensures unwritten { IfErr result.0 (LeavesUnwritten (writer_of out.old) (writer_of out.new)) }
    ensures reads { KeepsText CountsReads S.Text result.0 p2p.old p2p.new }
    ensures writes { KeepsWriter result.0 out.old out.new }
{
    let store = match open(alloc, disk) {
        Ok(store) => store,
        Err((refusal, disk)) => return (Err(Failed::Code(refusal)), disk),
    };
    let read = read_p2p(alloc, p2p, store.network().nodes());
    let pairs = match of_text(PAIRS, read) {
        Ok(pairs) => pairs,
        Err(failed) => return (Err(failed), store.close()),
    };
    ask_opened(rt, alloc, store, &pairs, routes, delta, out)
}
