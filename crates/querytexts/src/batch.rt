//! The pairs of a text.
ghost use Rattle.std.specs.Prelude.{◌≡◌, length, OnOk, IfOk, IfErr, IfSome};
ghost use Rattle.std.specs.Option.{ForSome};
ghost use Rattle.rows.specs.Kept.{IsWidth};
ghost use Rattle.dimacs.specs.Calling.{KeepsText};
ghost use Rattle.printing.specs.Counting.{writer_of};
ghost use Rattle.printing.specs.Failing.{CountsFirst, CountsSecond, LeavesUnwritten};
ghost use Rattle.printing.specs.Widths.{told_width};
ghost use Rattle.printing.specs.Writers.{KeepsWriter, Puts};
ghost use Rattle.querytexts.specs.Once.{Answers};
ghost use Rattle.querytexts.specs.Batch.{pair_query_of, answer_lines, AnswersAll, IsAnsweredBatch, IsOfBatch, IsRefusedBatch};

use dimacs::{Pair, Text, read_gr, read_p2p};
use printing::{CountedWriter, Done, Failed, of_text, put_answer, put_version};
use roadnet::{Network, OutOfMemory, Refusal};
use rows::{DEFAULT_ROWS, PairEnds, Query, Reply, Searches};
use std::alloc::Global;
use std::io::Write;
use std::thread::Threads;

const NETWORK: u8 = 0;

const PAIRS: u8 = 1;

/// The query that a pair asks.
fn query_of(pair: Pair) -> Query
    ensures { result ≡ pair_query_of pair }
{
    Query::Dist {
        source: u64::from(pair.source),
        target: u64::from(pair.target),
    }
}

/// The sources and targets of a text's pairs.
struct OfText;

impl PairEnds for OfText {
    type Pair = Pair;

    ghost source = { λ pair. pair.source };

    ghost target = { λ pair. pair.target };

    fn source(&self, pair: &Pair) -> u64 {
        u64::from(pair.source)
    }

    fn target(&self, pair: &Pair) -> u64 {
        u64::from(pair.target)
    }
}

/// Writes one line for each pair.
fn put_answers<W: Write>(
    out: &mut CountedWriter<'_, W>,
    pairs: &[Pair],
    replies: &[Reply],
) -> Result<(), Failed>
    requires { length replies.now ≡ length pairs.now }
    ensures { Puts W.contents (answer_lines pairs.now replies.now) result out.old out.new }
{
    for (index, pair) in pairs.iter().enumerate() {
        put_answer(out, &query_of(*pair), replies[index])?;
    }
    Ok(())
}

/// Writes the network's version and a right answer to each pair, by searches of the network, and sends them; or nothing, if there is no memory for all
/// replies (11). A failed write is 12; then an unknown part was written.
pub fn answer_by<T: Threads, W: Write>(
    rt: &T,
    alloc: Global,
    network: &Network,
    version: u64,
    searches: &Searches,
    pairs: &[Pair],
    out: &mut CountedWriter<'_, W>,
) -> Result<Done, Failed>
    ensures answered { OnOk result (AnswersAll network.now version pairs.now (W.contents (writer_of out.old)) (W.contents (writer_of out.new))) }
    ensures answers { Answers searches.now.delta result out.old out.new }
{
    let Ok(replies) = searches.batch(rt, alloc, network, &OfText, pairs) else {
        return Err(Failed::Code(Refusal::OutOfMemory));
    };
    put_version(out, version)?;
    put_answers(out, pairs, &replies)?;
    out.flush()?;
    Ok(Done::by(searches))
}

/// Writes the network's version and a right answer to each pair, in their order, and sends them; or nothing, if there is no memory for all replies (11). A
/// failed write is 12; then an unknown part was written.
///
/// `delta` is the width of a search's buckets, 1 to 2147483647. Without one it is the network's default. Whatever the order of the pairs, each source is
/// searched once; or, if there are fewer targets, each target is, over the reversed arcs. Up to four of these searches are made side by side, and 16 rows
/// are held at once, of 4 or 8 bytes a node. A pair takes 20 bytes.
pub fn answer_pairs<T: Threads, W: Write>(
    rt: &T,
    alloc: Global,
    network: &Network,
    version: u64,
    delta: Option<u32>,
    pairs: &[Pair],
    out: &mut CountedWriter<'_, W>,
) -> Result<Done, Failed>
    requires { ForSome delta IsWidth }
    ensures answered { OnOk result (AnswersAll network.now version pairs.now (W.contents (writer_of out.old)) (W.contents (writer_of out.new))) }
    ensures answers { Answers delta result out.old out.new }
{
    let searches = Searches::new(delta, DEFAULT_ROWS);
    answer_by(rt, alloc, network, version, &searches, pairs, out)
}

/// Writes the answer to each pair of a `.p2p` text, in the network of a `.gr` text, and nothing else: `v 0`, then one line for each pair, in their order.
/// Both texts are read completely before anything is written, the network first, and the first fault is the one reported. The nodes of the pairs are judged
/// by the network's number of nodes.
///
/// `delta` is the width of a search's buckets, 1 to 2147483647. Every width gives the same answers. Without one it is the network's default. Each source is
/// searched once, or each target if there are fewer targets, as by `answer_pairs`. If there is no memory for all replies, the call is refused with 11 and
/// nothing is written. A failed read is fault 10 of the text and line being read, and a failed write is 12. Both are reported only if the count of failed
/// calls of that text or of the writer rose. After an `Err` the texts and the writer are not used again.
pub fn batch_text<T: Threads, N: Text, P: Text, W: Write>(
    rt: &T,
    alloc: Global,
    gr: &mut N,
    p2p: &mut P,
    delta: Option<u32>,
    out: &mut CountedWriter<'_, W>,
) -> Result<Done, Failed>
    requires { ForSome delta IsWidth }
    ensures answered { OnOk result (IfSome (N.bytes gr.old) (λ network. IfSome (P.bytes p2p.old)
        (λ pairs. IsAnsweredBatch network pairs (W.contents (writer_of out.old)) (W.contents (writer_of out.new))))) }
    ensures width { IfOk result (λ done. told_width done ≡ delta) }
    ensures refused { IfErr result (λ failed. IfSome (N.bytes gr.old) (λ network. IfSome (P.bytes p2p.old)
        (λ pairs. IsRefusedBatch network pairs (N.source gr.new) (P.source p2p.new) failed))) }
    ensures codes { IfErr result IsOfBatch }
    ensures unwritten { IfErr result (LeavesUnwritten (writer_of out.old) (writer_of out.new)) }
    ensures reads_network { KeepsText CountsFirst N.Text result gr.old gr.new }
    ensures reads_pairs { KeepsText CountsSecond P.Text result p2p.old p2p.new }
    ensures writes { KeepsWriter result out.old out.new }
{
    let network = of_text(NETWORK, read_gr(alloc, gr))?;
    let pairs = of_text(PAIRS, read_p2p(alloc, p2p, network.nodes()))?;
    answer_pairs(rt, alloc, &network, 0, delta, &pairs, out)
}
