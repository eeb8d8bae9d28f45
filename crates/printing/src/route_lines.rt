//! Routes, as bytes.
ghost use Rattle.std.specs.List.{flat_map};
ghost use Rattle.printing.specs.Looks.{arc_answer};
ghost use Rattle.printing.specs.RouteLines.{route_line, route_lines};
ghost use Rattle.printing.specs.Writers.{Puts};

use crate::failed::Failed;
use crate::looks::{put_arc_answer, put_part};
use crate::printed::{put_answer, put_numbered, put_refusal};
use crate::writer::CountedWriter;
use routes::{Route, RouteReply};
use rows::{Query, Reply};
use shared_network::SharedNetwork;
use std::io::Write;

/// `route S T L C`
fn put_ends<W: Write>(
    out: &mut CountedWriter<'_, W>,
    source: u64,
    target: u64,
    route: &Route,
) -> Result<(), Failed>
    ensures { Puts W.contents (route_line source target route.now) result out.old out.new }
{
    put_part(out, b"route ", source)?;
    put_part(out, b" ", target)?;
    put_part(out, b" ", route.length)?;
    put_numbered(out, b" ", route.arcs.len() as u64)
}

/// The line of each of these arcs of a network, in order.
fn put_arcs<W: Write>(
    out: &mut CountedWriter<'_, W>,
    network: &SharedNetwork,
    arcs: &[u32],
) -> Result<(), Failed>
    ensures { Puts W.contents (flat_map (arc_answer network.now) arcs.now) result out.old out.new }
{
    for arc in arcs {
        put_arc_answer(out, network, u64::from(*arc))?;
    }
    Ok(())
}

/// `route S T L C` and C lines `a K T H W open`, the arcs of a route of length L from S to T in a network, in the order of the walk; or `x S T` if no walk
/// leads there, or `no 24`. It takes no memory.
///
/// In the network of `examples/six.gr`, a route from 5 to 2 is `route 5 2 0 1` and `a 7 5 2 0 open`.
pub fn put_route<W: Write>(
    out: &mut CountedWriter<'_, W>,
    network: &SharedNetwork,
    source: u64,
    target: u64,
    reply: &RouteReply,
) -> Result<(), Failed>
    ensures { Puts W.contents (route_lines network.now source target reply.now) result out.old out.new }
{
    match reply {
        RouteReply::Arcs(route) => {
            put_ends(out, source, target, route)?;
            put_arcs(out, network, &route.arcs)
        }
        RouteReply::NoWalk => put_answer(out, &Query::Dist { source, target }, Reply::NoWalk),
        RouteReply::Refused(refusal) => put_refusal(out, refusal.number()),
    }
}
