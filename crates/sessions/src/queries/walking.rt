//! The answers of a session to `route`.
ghost use Rattle.std.specs.Prelude.{◌≡◌};
ghost use mathlib.Core.List.{IsPrefix};
ghost use Rattle.printing.specs.Writers.{Puts};
ghost use Rattle.sessions.specs.Nearby.{IsToldAfter};
ghost use Rattle.sessions.specs.Routed.{route_or_refusal, IsRouteAnswer, IsRouteIn};
ghost use Rattle.sessions.specs.Saying.{PutsSo};
ghost use Rattle.sessions.specs.Told.{known_to};

use crate::queries::finding::{Heading, put_heading};
use crate::session::seeing::see;
use crate::told::telling::tell_refusal;
use desk::{Glance, Handle, Place, Served};
use printing::{CountedWriter, Failed, put_refusal, put_route};
use roadnet::{OutOfMemory, Refusal};
use routes::RouteReply;
use shared_network::SharedNetwork;
use std::alloc::Global;
use std::io::Write;
use std::thread::Threads;
use suppositions::Supposed;

/// The heading and the lines of a reply to a question for a route, or `no 11`.
fn put_found<W: Write>(
    out: &mut CountedWriter<'_, W>,
    heading: Heading,
    network: &SharedNetwork,
    source: u64,
    target: u64,
    found: &Result<RouteReply, OutOfMemory>,
) -> Result<(), Failed>
    ensures { Puts W.contents (route_or_refusal heading network.now source target found.now) result out.old out.new }
{
    match found {
        Ok(reply) => {
            put_heading(out, heading)?;
            put_route(out, network, source, target, reply)
        }
        Err(OutOfMemory) => put_refusal(out, Refusal::OutOfMemory.number()),
    }
}

/// The same, sent.
fn tell_route<W: Write>(
    out: &mut CountedWriter<'_, W>,
    heading: Heading,
    network: &SharedNetwork,
    source: u64,
    target: u64,
    found: &Result<RouteReply, OutOfMemory>,
) -> Result<(), Failed>
    ensures { Puts W.contents (route_or_refusal heading network.now source target found.now) result out.old out.new }
{
    put_found(out, heading, network, source, target, found)?;
    out.flush()
}

/// Writes a route at a glance, which is held until it is written, and sends it.
fn answer_route<S: Served, W: Write>(
    desk: &Handle<S>,
    glance: &Glance<S::Naming>,
    source: u64,
    target: u64,
    out: &mut CountedWriter<'_, W>,
) -> Result<(), Failed>
    ensures { PutsSo W.contents (IsRouteAnswer source target glance.now.view.network glance.now.view.version) result out.old out.new }
{
    let found = desk.route(glance, source, target);
    let heading = Heading::Shown(glance.version());
    tell_route(out, heading, glance.network(), source, target, &found)
}

/// Writes a route in the shown view, and sends it.
#[inline(never)]
pub(crate) fn route_shown<S: Served, W: Write>(
    place: &mut Option<Place<S::Naming>>,
    desk: &Handle<S>,
    source: u64,
    target: u64,
    out: &mut CountedWriter<'_, W>,
) -> Result<(), Failed>
    ensures told { PutsSo W.contents (IsToldAfter S.Naming.origin (known_to place.new) (IsRouteAnswer source target)) result out.old out.new }
    ensures begins { IsPrefix (known_to place.old) (known_to place.new) }
{
    match see(place, desk) {
        Ok(glance) => answer_route(desk, &glance, source, target, out),
        Err(refusal) => tell_refusal(out, refusal),
    }
}

/// Writes a route in the supposed network, and sends it.
#[inline(never)]
pub(crate) fn route_supposed<R: Threads, W: Write>(
    rt: &R,
    alloc: Global,
    supposed: &mut Supposed,
    source: u64,
    target: u64,
    out: &mut CountedWriter<'_, W>,
) -> Result<(), Failed>
    ensures told { PutsSo W.contents (IsRouteIn supposed.old source target) result out.old out.new }
    ensures supposed { supposed.new ≡ supposed.old }
{
    let heading = Heading::Supposed(supposed.version());
    let found = supposed.route(rt, alloc, source, target);
    tell_route(out, heading, supposed.network(), source, target, &found)
}
