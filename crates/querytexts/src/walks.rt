//! One route of a text's network, and the routes of pairs.
ghost use Rattle.std.specs.Prelude.{◌≡◌, ◌++◌, length, OnOk, IfOk, IfErr, IfSome, IsOk, IsSome};
ghost use Rattle.std.specs.Option.{ForSome};
ghost use Rattle.rows.specs.Kept.{IsWidth};
ghost use Rattle.rows.specs.Replies.{are_nodes, query_refusal_of};
ghost use Rattle.rows.specs.declared.queries.Query.TheVariants.{Dist};
ghost use Rattle.routes.specs.RouteReplies.{IsRightRoute};
ghost use Rattle.dimacs.specs.Calling.{KeepsText};
ghost use Rattle.printing.specs.Counting.{writer_of};
ghost use Rattle.printing.specs.Failing.{CountsReads, LeavesUnwritten};
ghost use Rattle.printing.specs.Printed.{version_line};
ghost use Rattle.printing.specs.RouteLines.{route_lines};
ghost use Rattle.printing.specs.Widths.{told_width};
ghost use Rattle.printing.specs.Writers.{KeepsWriter, Puts};
ghost use Rattle.querytexts.specs.Once.{Answers, IsOfOnce, IsRefusedOnce};
ghost use Rattle.querytexts.specs.Route.{routes_lines, AnswersRoute, AnswersRoutes, AreRightRoutes, IsAnsweredRoute};

use crate::reaches::put_no_node;
use deltastep::Workspace;
use dimacs::{Pair, Text, read_gr};
use printing::{CountedWriter, Done, Failed, of_text, put_route, put_version};
use relax::{CHUNK, Crew};
use roadnet::{Network, OutOfMemory, Refusal};
use routes::{RouteReply, answer_route};
use rows::{Asker, Searches, numbered_back};
use shared_network::SharedNetwork;
use std::alloc::Global;
use std::io::Write;
use std::thread::Threads;

const NETWORK: u8 = 0;

/// How many rows are kept at most. A route keeps none.
const ROWS: u32 = 1;

/// The version of a text's network.
const VERSION: u64 = 0;

/// The reply to a question for a route, by a search that ends at the target. The only error is lack of memory.
fn find<T: Threads>(
    rt: &T,
    searches: &Searches,
    alloc: Global,
    network: &SharedNetwork,
    s: u64,
    t: u64,
) -> Result<RouteReply, OutOfMemory>
    ensures { IfOk result (IsRightRoute network.now s t) }
{
    let groups = searches.group(alloc, network)?;
    let back = numbered_back(alloc, network)?;
    let team = Crew::new(rt, CHUNK);
    let asker = Asker::of(VERSION, network, &groups);
    answer_route(
        alloc,
        &asker,
        &back,
        s,
        t,
        None,
        &team,
        &mut Workspace::new(),
    )
}

/// The replies to questions for the routes of pairs, in their order, each by a search that ends at its target. The only error is lack of memory, for the
/// groups, the reversed arcs, a search, and 4 bytes an arc of each route.
fn find_all<T: Threads>(
    rt: &T,
    searches: &Searches,
    alloc: Global,
    network: &SharedNetwork,
    pairs: &[Pair],
) -> Result<Vec<RouteReply>, OutOfMemory>
    ensures { IfOk result (λ replies. AreRightRoutes network.now pairs.now replies.items) }
{
    let groups = searches.group(alloc, network)?;
    let back = numbered_back(alloc, network)?;
    let team = Crew::new(rt, CHUNK);
    let asker = Asker::of(VERSION, network, &groups);
    let mut room = Workspace::new();
    let mut replies = Vec::with_capacity(alloc, pairs.len())?;
    for pair in pairs {
        let source = u64::from(pair.source);
        let target = u64::from(pair.target);
        let reply = answer_route(alloc, &asker, &back, source, target, None, &team, &mut room)?;
        if replies.push(reply).is_err() {
            return Err(OutOfMemory);
        }
    }
    Ok(replies)
}

/// Writes the lines of a route for each pair.
fn put_routes<W: Write>(
    out: &mut CountedWriter<'_, W>,
    network: &SharedNetwork,
    pairs: &[Pair],
    replies: &[RouteReply],
) -> Result<(), Failed>
    requires { length replies.now ≡ length pairs.now }
    ensures { Puts W.contents (routes_lines network.now pairs.now replies.now) result out.old out.new }
{
    for (index, pair) in pairs.iter().enumerate() {
        let source = u64::from(pair.source);
        let target = u64::from(pair.target);
        put_route(out, network, source, target, &replies[index])?;
    }
    Ok(())
}

/// Writes the version and the lines of a route for each pair, and sends them.
fn put_all<W: Write>(
    out: &mut CountedWriter<'_, W>,
    network: &SharedNetwork,
    version: u64,
    pairs: &[Pair],
    replies: &[RouteReply],
) -> Result<(), Failed>
    requires { length replies.now ≡ length pairs.now }
    ensures { Puts W.contents (version_line version ++ routes_lines network.now pairs.now replies.now) result out.old out.new }
{
    put_version(out, version)?;
    put_routes(out, network, pairs, replies)?;
    out.flush()
}

/// Writes the network's version and the lines of a route for each pair, in their order, and sends them; or nothing, if there is no memory for all routes (11).
/// A failed write is 12; then an unknown part was written.
///
/// `delta` is the width of a search's buckets, 1 to 2147483647. Without one it is the network's default. Each pair is one search that ends at its target.
pub fn answer_routes<T: Threads, W: Write>(
    rt: &T,
    alloc: Global,
    network: &Network,
    version: u64,
    delta: Option<u32>,
    pairs: &[Pair],
    out: &mut CountedWriter<'_, W>,
) -> Result<Done, Failed>
    requires { ForSome delta IsWidth }
    ensures answered { OnOk result (AnswersRoutes network.now version pairs.now (W.contents (writer_of out.old)) (W.contents (writer_of out.new))) }
    ensures answers { Answers delta result out.old out.new }
{
    let searches = Searches::new(delta, ROWS);
    let Ok(network) = SharedNetwork::of(alloc, network) else {
        return Err(Failed::Code(Refusal::OutOfMemory));
    };
    let Ok(replies) = find_all(rt, &searches, alloc, &network, pairs) else {
        return Err(Failed::Code(Refusal::OutOfMemory));
    };
    put_all(out, &network, version, pairs, &replies)?;
    Ok(Done::by(&searches))
}

/// Writes the version and the lines of a reply, and sends them.
fn put_found<W: Write>(
    out: &mut CountedWriter<'_, W>,
    network: &SharedNetwork,
    s: u64,
    t: u64,
    reply: &RouteReply,
) -> Result<(), Failed>
    ensures { Puts W.contents (version_line 0 ++ route_lines network.now s t reply.now) result out.old out.new }
{
    put_version(out, VERSION)?;
    put_route(out, network, s, t, reply)?;
    out.flush()
}

/// Whether the network has nodes of both numbers.
fn has_nodes(network: &Network, s: u64, t: u64) -> bool
    ensures { result ≡ are_nodes network.now s t }
{
    network.has_node(s) && network.has_node(t)
}

/// Writes the version 0 and the lines of a right reply, and sends them; or nothing, if there is no memory for the reply (11).
fn answer_one<T: Threads, W: Write>(
    rt: &T,
    alloc: Global,
    network: &Network,
    delta: Option<u32>,
    s: u64,
    t: u64,
    out: &mut CountedWriter<'_, W>,
) -> Result<Done, Failed>
    requires { ForSome delta IsWidth }
    ensures answered { OnOk result (AnswersRoute network.now s t (W.contents (writer_of out.old)) (W.contents (writer_of out.new))) }
    ensures answers { Answers delta result out.old out.new }
    // What is refused takes no memory.
    ensures memory { IsSome (query_refusal_of network.now (Dist s t)) → IfErr result (λ failed. failed ≡ Failed.Code Refusal.Write) }
{
    let searches = Searches::new(delta, ROWS);
    if !has_nodes(network, s, t) {
        put_no_node(out)?;
        return Ok(Done::by(&searches));
    }
    let Ok(network) = SharedNetwork::of(alloc, network) else {
        return Err(Failed::Code(Refusal::OutOfMemory));
    };
    let Ok(reply) = find(rt, &searches, alloc, &network, s, t) else {
        return Err(Failed::Code(Refusal::OutOfMemory));
    };
    put_found(out, &network, s, t, &reply)?;
    Ok(Done::by(&searches))
}

/// Writes the arcs of a shortest walk from node `s` to node `t` in the network of a `.gr` text, and nothing else: `v 0`, then `route S T LENGTH C` and C
/// lines `a K T H W open`, the arcs in the order of the walk, which visits no node twice; or `x S T` if no walk leads there; or `no 24` for a number that is
/// not a node's. The text is read completely before anything is written.
///
/// `delta` is the width of a search's buckets, 1 to 2147483647. Without one it is the network's default. The search ends at the target, and uses a crew of
/// the runtime's threads. If there is no memory for the reply, the call is refused with 11 and nothing is written. A failed read is fault 10 of the line
/// being read, and a failed write is 12. Both are reported only if the count of failed calls of the text or of the writer rose. After an `Err` the text and
/// the writer are not used again.
///
/// In the network of `examples/six.gr`, from 5 to 2 it gives `v 0 / route 5 2 0 1 / a 7 5 2 0 open`, where `/` is a line feed.
pub fn route_text<T: Threads, S: Text, W: Write>(
    rt: &T,
    alloc: Global,
    gr: &mut S,
    s: u64,
    t: u64,
    delta: Option<u32>,
    out: &mut CountedWriter<'_, W>,
) -> Result<Done, Failed>
    requires { ForSome delta IsWidth }
    ensures answered { OnOk result (IfSome (S.bytes gr.old)
        (λ text. IsAnsweredRoute text s t (W.contents (writer_of out.old)) (W.contents (writer_of out.new)))) }
    ensures width { IfOk result (λ done. told_width done ≡ delta) }
    ensures refused { IfErr result (λ failed. IfSome (S.bytes gr.old) (λ text. IsRefusedOnce text (Dist s t) (S.source gr.new) failed)) }
    ensures codes { IfErr result IsOfOnce }
    ensures unwritten { IfErr result (LeavesUnwritten (writer_of out.old) (writer_of out.new)) }
    ensures reads { KeepsText CountsReads S.Text result gr.old gr.new }
    ensures writes { KeepsWriter result out.old out.new }
{
    let network = of_text(NETWORK, read_gr(alloc, gr))?;
    answer_one(rt, alloc, &network, delta, s, t, out)
}
