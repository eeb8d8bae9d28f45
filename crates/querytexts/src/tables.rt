//! Tables: the pairs between sources and targets, which two texts list.
ghost use Rattle.std.specs.Prelude.{◌≡◌, ◌++◌, OnOk, IfOk, IfErr, IfSome};
ghost use Rattle.std.specs.Option.{ForSome};
ghost use Rattle.rows.specs.Kept.{IsWidth};
ghost use Rattle.dimacs.specs.Calling.{KeepsText};
ghost use Rattle.printing.specs.Counting.{writer_of};
ghost use Rattle.printing.specs.Failing.{CountsFirst, CountsSecond, CountsThird, LeavesUnwritten};
ghost use Rattle.printing.specs.Widths.{told_width};
ghost use Rattle.printing.specs.Writers.{KeepsWriter};
ghost use Rattle.querytexts.specs.Once.{Answers};
ghost use Rattle.querytexts.specs.Batch.{AnswersAll};
ghost use Rattle.querytexts.specs.Table.{pairs_from, pairs_between, IsAnsweredTable, IsOfTable, IsRefusedTable};

use crate::batch::answer_pairs;
use dimacs::{Pair, Text, read_gr, read_nodes};
use printing::{CountedWriter, Done, Failed, of_text};
use roadnet::{Network, OutOfMemory, Refusal};
use std::alloc::Global;
use std::io::Write;
use std::thread::Threads;

const NETWORK: u8 = 0;

const SOURCES: u8 = 1;

const TARGETS: u8 = 2;

/// Adds the pairs of a source with each target. The only error is lack of memory.
fn add_row(pairs: &mut Vec<Pair>, source: u32, targets: &[u32]) -> Result<(), OutOfMemory>
    ensures { OnOk result (pairs.new.items ≡ pairs.old.items ++ pairs_from source targets.now) }
{
    for &target in targets {
        if pairs.push(Pair { source, target }).is_err() {
            return Err(OutOfMemory);
        }
    }
    Ok(())
}

/// The pairs of each source with each target, source by source. The only error is lack of memory, for 8 bytes a pair.
fn pairs_between(alloc: Global, sources: &[u32], targets: &[u32]) -> Result<Vec<Pair>, OutOfMemory>
    ensures { IfOk result (λ pairs. pairs.items ≡ pairs_between sources.now targets.now) }
{
    let count = sources.len().saturating_mul(targets.len());
    let mut pairs = Vec::with_capacity(alloc, count)?;
    for &source in sources {
        add_row(&mut pairs, source, targets)?;
    }
    Ok(pairs)
}

/// Writes the network's version and a right answer to each pair of a source and a target, source by source, and sends them; or nothing, if there is no
/// memory for all replies (11). A failed write is 12; then an unknown part was written.
///
/// It is `answer_pairs` for these pairs: so each source is searched once, or each target if there are fewer targets, and a pair takes 28 bytes.
pub fn answer_table<T: Threads, W: Write>(
    rt: &T,
    alloc: Global,
    network: &Network,
    version: u64,
    delta: Option<u32>,
    sources: &[u32],
    targets: &[u32],
    out: &mut CountedWriter<'_, W>,
) -> Result<Done, Failed>
    requires { ForSome delta IsWidth }
    ensures answered { OnOk result (AnswersAll network.now version (pairs_between sources.now targets.now) (W.contents (writer_of out.old)) (W.contents (writer_of out.new))) }
    ensures answers { Answers delta result out.old out.new }
{
    let Ok(pairs) = pairs_between(alloc, sources, targets) else {
        return Err(Failed::Code(Refusal::OutOfMemory));
    };
    answer_pairs(rt, alloc, network, version, delta, &pairs, out)
}

/// Writes the answer to each pair of a node that one `.ss` text lists and one that another lists, in the network of a `.gr` text, and nothing else: `v 0`,
/// then one line for each pair, source by source, in the order of the lines of the two texts. A node that is listed several times is answered as often. The
/// texts are read completely before anything is written, the network first, then the sources, then the targets, and the first fault is the one reported:
/// `which` is 0 for the network, 1 for the sources and 2 for the targets. Nodes are judged by the network's number of nodes.
///
/// `delta` is the width of a search's buckets, 1 to 2147483647. Every width gives the same answers. Without one it is the network's default. Each source is
/// searched once, or each target if there are fewer targets, as by `answer_table`. If there is no memory for all replies, the call is refused with 11 and
/// nothing is written. A failed read is fault 10 of the text and line being read, and a failed write is 12. Both are reported only if the count of failed
/// calls of that text or of the writer rose. After an `Err` the texts and the writer are not used again.
///
/// In the network of `examples/six.gr`, the sources 1 and 5 with the targets 4 and 6 give `v 0 / d 1 4 12 / d 1 6 15 / d 5 4 2 / d 5 6 5`, where `/` is a
/// line feed.
pub fn table_text<T: Threads, N: Text, P: Text, Q: Text, W: Write>(
    rt: &T,
    alloc: Global,
    gr: &mut N,
    sources: &mut P,
    targets: &mut Q,
    delta: Option<u32>,
    out: &mut CountedWriter<'_, W>,
) -> Result<Done, Failed>
    requires { ForSome delta IsWidth }
    ensures answered { OnOk result (IfSome (N.bytes gr.old) (λ network. IfSome (P.bytes sources.old) (λ from. IfSome (Q.bytes targets.old)
        (λ to. IsAnsweredTable network from to (W.contents (writer_of out.old)) (W.contents (writer_of out.new)))))) }
    ensures width { IfOk result (λ done. told_width done ≡ delta) }
    ensures refused { IfErr result (λ failed. IfSome (N.bytes gr.old) (λ network. IfSome (P.bytes sources.old) (λ from. IfSome (Q.bytes targets.old)
        (λ to. IsRefusedTable network from to (N.source gr.new) (P.source sources.new) (Q.source targets.new) failed)))) }
    ensures codes { IfErr result IsOfTable }
    ensures unwritten { IfErr result (LeavesUnwritten (writer_of out.old) (writer_of out.new)) }
    ensures reads_network { KeepsText CountsFirst N.Text result gr.old gr.new }
    ensures reads_sources { KeepsText CountsSecond P.Text result sources.old sources.new }
    ensures reads_targets { KeepsText CountsThird Q.Text result targets.old targets.new }
    ensures writes { KeepsWriter result out.old out.new }
{
    let network = of_text(NETWORK, read_gr(alloc, gr))?;
    let nodes = network.nodes();
    let from = of_text(SOURCES, read_nodes(alloc, sources, nodes))?;
    let to = of_text(TARGETS, read_nodes(alloc, targets, nodes))?;
    answer_table(rt, alloc, &network, 0, delta, &from, &to, out)
}
