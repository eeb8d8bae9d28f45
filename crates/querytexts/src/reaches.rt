//! The nodes that a node of a text's network reaches, and those that reach it.
ghost use Rattle.std.specs.Prelude.{◌≡◌, ◌++◌, false, OnOk, IfOk, IfErr, IfSome};
ghost use Rattle.std.specs.Option.{ForSome};
ghost use Rattle.roadnet.specs.Net.{IsNetwork, IsNode};
ghost use Rattle.roadnet.specs.Numbers.{number_of};
ghost use Rattle.roadnet.specs.Step.{is_node};
ghost use Rattle.rows.specs.Kept.{IsWidth};
ghost use Rattle.dimacs.specs.Calling.{KeepsText};
ghost use Rattle.printing.specs.Counting.{writer_of};
ghost use Rattle.printing.specs.Failing.{CountsReads, LeavesUnwritten};
ghost use Rattle.printing.specs.Printed.{version_line, refusal_line};
ghost use Rattle.printing.specs.Widths.{told_width};
ghost use Rattle.printing.specs.Writers.{KeepsWriter, Puts};
ghost use Rattle.querytexts.specs.Once.{Answers, IsOfOnce};
ghost use Rattle.querytexts.specs.Reach.{center_of, reach_query_of, lines_of_reach, AreGroupsFor, AnswersReach, IsAnsweredReach, IsReachOfText, IsRefusedReach};

use deltastep::{NodeDistance, RowError, Workspace, reach_in, reached_in};
use dimacs::{Text, read_gr};
use printing::{CountedWriter, Done, Failed, of_text, put_answer, put_refusal, put_version};
use relax::{CHUNK, Crew};
use roadnet::{Network, OutOfMemory, Refusal};
use rows::{Query, Reply, Searches};
use shared_network::SharedNetwork;
use snapshot::Snapshot;
use std::alloc::Global;
use std::io::Write;
use std::thread::Threads;

const NETWORK: u8 = 0;

/// The node around which others are asked for, and in which direction the walks lead.
#[derive(Clone, Copy, Debug, PartialEq, Eq)]
pub enum Reach {
    /// The nodes to which walks from `source` lead.
    From { source: u64 },
    /// The nodes from which walks lead to `target`.
    To { target: u64 },
}

impl Reach {
    /// The node around which others are asked for.
    fn center(self) -> u64
        ensures { result ≡ center_of self }
    {
        match self {
            Reach::From { source } => source,
            Reach::To { target } => target,
        }
    }

    /// The query for the walks between it and another node.
    fn query_of(self, node: u32) -> Query
        ensures { result ≡ reach_query_of self node }
    {
        let node = u64::from(node);
        match self {
            Reach::From { source } => Query::Dist {
                source,
                target: node,
            },
            Reach::To { target } => Query::Dist {
                source: node,
                target,
            },
        }
    }
}

/// How many rows exist at once: a search around a node makes none.
const ROWS: u32 = 1;

/// The groups of the network's open arcs; for walks to a node, of the reversed arcs. The only error is lack of memory.
fn group(
    searches: &Searches,
    alloc: Global,
    network: &SharedNetwork,
    reach: Reach,
) -> Result<Snapshot, OutOfMemory>
    ensures { IfOk result (AreGroupsFor network.now reach) }
{
    match reach {
        Reach::From { source: _ } => searches.group(alloc, network),
        Reach::To { target: _ } => searches.turn(alloc, network),
    }
}

/// The nodes with walks whose least length is within the limit, ascending. The only error is lack of memory.
fn find_in<T: Threads>(
    rt: &T,
    searches: &Searches,
    alloc: Global,
    network: &SharedNetwork,
    reach: Reach,
    limit: Option<u64>,
) -> Result<Vec<NodeDistance>, RowError>
    requires network { IsNetwork network.now }
    requires node { IsNode network.now (center_of reach) }
    ensures { IfOk result (λ told. IsReachOfText network.now reach limit told.items) }
{
    let groups = group(searches, alloc, network, reach)?;
    let limit = limit.unwrap_or(u64::MAX);
    let team = Crew::new(rt, CHUNK);
    let mut workspace = Workspace::new();
    match reach {
        Reach::From { source } => {
            reach_in(alloc, &groups, source as u32, limit, &team, &mut workspace)
        }
        Reach::To { target } => {
            reached_in(alloc, &groups, target as u32, limit, &team, &mut workspace)
        }
    }
}

/// The same of a network that shares nothing, of which it makes a copy.
fn find<T: Threads>(
    rt: &T,
    searches: &Searches,
    alloc: Global,
    network: &Network,
    reach: Reach,
    limit: Option<u64>,
) -> Result<Vec<NodeDistance>, RowError>
    requires network { IsNetwork network.now }
    requires node { IsNode network.now (center_of reach) }
    ensures { IfOk result (λ told. IsReachOfText network.now reach limit told.items) }
{
    let network = SharedNetwork::of(alloc, network)?;
    find_in(rt, searches, alloc, &network, reach, limit)
}

/// Writes one line for each node.
fn put_reach<W: Write>(
    out: &mut CountedWriter<'_, W>,
    reach: Reach,
    told: &[NodeDistance],
) -> Result<(), Failed>
    ensures { Puts W.contents (lines_of_reach reach told.now) result out.old out.new }
{
    for one in told {
        put_answer(out, &reach.query_of(one.node), Reply::Length(one.distance))?;
    }
    Ok(())
}

/// Writes the version and one line for each node, and sends them.
fn put_found<W: Write>(
    out: &mut CountedWriter<'_, W>,
    reach: Reach,
    told: &[NodeDistance],
) -> Result<(), Failed>
    ensures { Puts W.contents (version_line 0 ++ lines_of_reach reach told.now) result out.old out.new }
{
    put_version(out, 0)?;
    put_reach(out, reach, told)?;
    out.flush()
}

/// Writes the version and that there is no such node, and sends them.
pub(crate) fn put_no_node<W: Write>(out: &mut CountedWriter<'_, W>) -> Result<(), Failed>
    ensures { Puts W.contents (version_line 0 ++ refusal_line (number_of Refusal.NoSuchNode)) result out.old out.new }
{
    put_version(out, 0)?;
    put_refusal(out, Refusal::NoSuchNode.number())?;
    out.flush()
}

/// Writes the version 0 and a line for each node within the limit, and sends them; or nothing, if there is no memory for them.
fn answer_reach<T: Threads, W: Write>(
    rt: &T,
    alloc: Global,
    network: &Network,
    reach: Reach,
    limit: Option<u64>,
    delta: Option<u32>,
    out: &mut CountedWriter<'_, W>,
) -> Result<Done, Failed>
    requires { ForSome delta IsWidth }
    ensures answered { OnOk result (AnswersReach network.now reach limit (W.contents (writer_of out.old)) (W.contents (writer_of out.new))) }
    ensures answers { Answers delta result out.old out.new }
    // For a number that is not a node's, no memory is taken.
    ensures memory { is_node network.now (center_of reach) ≡ false → IfErr result (λ failed. failed ≡ Failed.Code Refusal.Write) }
{
    let searches = Searches::new(delta, ROWS);
    if !network.has_node(reach.center()) {
        put_no_node(out)?;
        return Ok(Done::by(&searches));
    }
    let Ok(told) = find(rt, &searches, alloc, network, reach, limit) else {
        return Err(Failed::Code(Refusal::OutOfMemory));
    };
    put_found(out, reach, &told)?;
    Ok(Done::by(&searches))
}

/// Writes which nodes walks reach from a node, or from which nodes they reach it, within a limit, in the network of a `.gr` text, and nothing else: `v 0`,
/// then for each of them a line `d S T LENGTH` with the least length of a walk from S to T, ascending by node. Without a limit it is all nodes that have
/// such a walk. The node itself is one of them, with 0. A number that is not a node's is answered with `no 24`. The text is read completely before anything
/// is written.
///
/// `delta` is the width of a search's buckets, 1 to 2147483647. Every width gives the same answer. Without one it is the network's default. The search ends
/// beyond the limit, and is made by a crew of the runtime's threads; walks to a node are searched over the arcs turned round. If there is no memory for the
/// nodes, the call is refused with 11 and nothing is written. A failed read is fault 10 of the line being read, and a failed write is 12. Both are reported
/// only if the count of failed calls of the text or of the writer rose. After an `Err` the text and the writer are not used again.
///
/// In the network of `examples/six.gr`, from 1 within 10 it gives `v 0 / d 1 1 0 / d 1 2 10 / d 1 3 10 / d 1 5 10`, where `/` is a line feed, and to 4
/// within 0 it gives `v 0 / d 4 4 0`.
pub fn reach_text<T: Threads, S: Text, W: Write>(
    rt: &T,
    alloc: Global,
    gr: &mut S,
    reach: Reach,
    limit: Option<u64>,
    delta: Option<u32>,
    out: &mut CountedWriter<'_, W>,
) -> Result<Done, Failed>
    requires { ForSome delta IsWidth }
    ensures answered { OnOk result (IfSome (S.bytes gr.old)
        (λ text. IsAnsweredReach text reach limit (W.contents (writer_of out.old)) (W.contents (writer_of out.new)))) }
    ensures width { IfOk result (λ done. told_width done ≡ delta) }
    ensures refused { IfErr result (λ failed. IfSome (S.bytes gr.old) (λ text. IsRefusedReach text reach (S.source gr.new) failed)) }
    ensures codes { IfErr result IsOfOnce }
    ensures unwritten { IfErr result (LeavesUnwritten (writer_of out.old) (writer_of out.new)) }
    ensures reads { KeepsText CountsReads S.Text result gr.old gr.new }
    ensures writes { KeepsWriter result out.old out.new }
{
    let network = of_text(NETWORK, read_gr(alloc, gr))?;
    answer_reach(rt, alloc, &network, reach, limit, delta, out)
}
