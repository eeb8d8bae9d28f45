//! The answers of a session about nodes near a node, and about tables.
ghost use Rattle.std.specs.Prelude.{◌≡◌, ◌++◌, length, true, None, IfOk, IfErr, OnOk};
ghost use mathlib.Core.List.{IsPrefix};
ghost use Rattle.roadnet.specs.Step.{is_node};
ghost use Rattle.rows.specs.Views.{AreRight};
ghost use Rattle.rows.specs.Nearby.{are_pairs, node_of, IsNear, IsUntold};
ghost use Rattle.printing.specs.Nodes.{pair_lines};
ghost use Rattle.printing.specs.Writers.{Puts};
ghost use Rattle.sessions.specs.Headings.{heading_line, untold_lines};
ghost use Rattle.sessions.specs.Nearby.{near_lines, IsNearAnswer, IsTableAnswer, IsToldAfter};
ghost use Rattle.sessions.specs.Saying.{PutsSo};
ghost use Rattle.sessions.specs.Told.{known_to};
ghost use Rattle.sessions.specs.Turns.{IsTabled};

use crate::session::seeing::see;
use crate::told::telling::tell_refusal;
use deltastep::NodeDistance;
use desk::{Glance, Handle, Near, Place, Served};
use printing::{
    CountedWriter, Failed, put_nearest, put_numbered, put_pairs, put_reach, put_reached,
    put_refusal, put_version,
};
use roadnet::{OutOfMemory, Refusal};
use rows::Reply;
use session_lines::Table;
use std::alloc::Global;
use std::io::Write;

/// What an answer refers to: its first line names that.
#[derive(Clone, Copy)]
pub(crate) enum Heading {
    /// The version that is shown: `v V`.
    Shown(u64),
    /// What is supposed, based on this version: `s V`.
    Supposed(u64),
}

/// The line that names what an answer refers to.
pub(crate) fn put_heading<W: Write>(
    out: &mut CountedWriter<'_, W>,
    heading: Heading,
) -> Result<(), Failed>
    ensures { Puts W.contents (heading_line heading) result out.old out.new }
{
    match heading {
        Heading::Shown(version) => put_version(out, version),
        Heading::Supposed(version) => put_numbered(out, b"s ", version),
    }
}

/// The lines of what is near a node.
fn put_near<W: Write>(
    out: &mut CountedWriter<'_, W>,
    near: Near,
    found: &[NodeDistance],
) -> Result<(), Failed>
    ensures { Puts W.contents (near_lines near found.now) result out.old out.new }
{
    match near {
        Near::Reach { source, limit: _ } => put_reach(out, source, found),
        Near::Reached { target, limit: _ } => put_reached(out, target, found),
        Near::Nearest { source, count: _ } => put_nearest(out, source, found),
    }
}

/// What is near a node, sent.
pub(crate) fn tell_near<W: Write>(
    out: &mut CountedWriter<'_, W>,
    heading: Heading,
    near: Near,
    found: &[NodeDistance],
) -> Result<(), Failed>
    ensures { Puts W.contents (heading_line heading ++ near_lines near found.now) result out.old out.new }
{
    put_heading(out, heading)?;
    put_near(out, near, found)?;
    out.flush()
}

/// The answers to pairs, sent.
pub(crate) fn tell_pairs<W: Write>(
    out: &mut CountedWriter<'_, W>,
    heading: Heading,
    pairs: &[(u64, u64)],
    replies: &[Reply],
) -> Result<(), Failed>
    requires { length replies.now ≡ length pairs.now }
    ensures { Puts W.contents (heading_line heading ++ pair_lines pairs.now replies.now) result out.old out.new }
{
    put_heading(out, heading)?;
    put_pairs(out, pairs, replies)?;
    out.flush()
}

/// The heading and `no 24`, or `no CODE`
fn put_untold<W: Write>(
    out: &mut CountedWriter<'_, W>,
    heading: Heading,
    refusal: Refusal,
) -> Result<(), Failed>
    ensures { Puts W.contents (untold_lines heading refusal) result out.old out.new }
{
    if matches!(&refusal, Refusal::NoSuchNode) {
        put_heading(out, heading)?;
    }
    put_refusal(out, refusal.number())
}

/// The same, sent.
pub(crate) fn tell_untold<W: Write>(
    out: &mut CountedWriter<'_, W>,
    heading: Heading,
    refusal: Refusal,
) -> Result<(), Failed>
    ensures { Puts W.contents (untold_lines heading refusal) result out.old out.new }
{
    put_untold(out, heading, refusal)?;
    out.flush()
}

/// What is near a node at a glance, with its version. Once that is known, the view is no longer held.
fn near_at<S: Served>(
    desk: &Handle<S>,
    glance: Glance<S::Naming>,
    near: Near,
) -> (u64, Result<Vec<NodeDistance>, Refusal>)
    ensures version { result.0 ≡ glance.view.version }
    ensures near { IfOk result.1 (λ found. IsNear glance.view.network near found.items) }
    ensures node { OnOk result.1 (is_node glance.view.network (node_of near) ≡ true) }
    ensures causes { IfErr result.1 (IsUntold (is_node glance.view.network (node_of near))) }
{
    let found = desk.near(&glance, near);
    (glance.version(), found)
}

/// The replies to pairs at a glance, with its version. Once they are known, the view is no longer held.
fn table_at<S: Served>(
    desk: &Handle<S>,
    glance: Glance<S::Naming>,
    pairs: &[(u64, u64)],
) -> (u64, Result<Vec<Reply>, Refusal>)
    ensures version { result.0 ≡ glance.view.version }
    ensures right { IfOk result.1 (λ replies. AreRight glance.view.network pairs.now replies.items) }
    ensures nodes { OnOk result.1 (are_pairs glance.view.network pairs.now ≡ true) }
    ensures causes { IfErr result.1 (IsUntold (are_pairs glance.view.network pairs.now)) }
{
    let replies = desk.table(&glance, pairs);
    (glance.version(), replies)
}

/// Writes what is near a node at a glance, and sends it.
fn answer_near<S: Served, W: Write>(
    desk: &Handle<S>,
    glance: Glance<S::Naming>,
    near: Near,
    out: &mut CountedWriter<'_, W>,
) -> Result<(), Failed>
    ensures { PutsSo W.contents (IsNearAnswer near glance.view.network glance.view.version) result out.old out.new }
{
    let (version, found) = near_at(desk, glance, near);
    let heading = Heading::Shown(version);
    match found {
        Ok(found) => tell_near(out, heading, near, &found),
        Err(refusal) => tell_untold(out, heading, refusal),
    }
}

/// Writes the answers to pairs at a glance, and sends them.
fn answer_table<S: Served, W: Write>(
    desk: &Handle<S>,
    glance: Glance<S::Naming>,
    pairs: &[(u64, u64)],
    out: &mut CountedWriter<'_, W>,
) -> Result<(), Failed>
    ensures { PutsSo W.contents (IsTableAnswer pairs.now glance.view.network glance.view.version) result out.old out.new }
{
    let (version, replies) = table_at(desk, glance, pairs);
    let heading = Heading::Shown(version);
    match replies {
        Ok(replies) => tell_pairs(out, heading, pairs, &replies),
        Err(refusal) => tell_untold(out, heading, refusal),
    }
}

/// Writes what is near a node in the shown view, and sends it.
#[inline(never)]
pub(crate) fn near_shown<S: Served, W: Write>(
    place: &mut Option<Place<S::Naming>>,
    desk: &Handle<S>,
    near: Near,
    out: &mut CountedWriter<'_, W>,
) -> Result<(), Failed>
    ensures told { PutsSo W.contents (IsToldAfter S.Naming.origin (known_to place.new) (IsNearAnswer near)) result out.old out.new }
    ensures begins { IsPrefix (known_to place.old) (known_to place.new) }
{
    match see(place, desk) {
        Ok(glance) => answer_near(desk, glance, near, out),
        Err(refusal) => tell_refusal(out, refusal),
    }
}

/// Writes the answers to pairs in the shown view, and sends them.
fn pairs_shown<S: Served, W: Write>(
    place: &mut Option<Place<S::Naming>>,
    desk: &Handle<S>,
    pairs: &[(u64, u64)],
    out: &mut CountedWriter<'_, W>,
) -> Result<(), Failed>
    ensures told { PutsSo W.contents (IsToldAfter S.Naming.origin (known_to place.new) (IsTableAnswer pairs.now)) result out.old out.new }
    ensures begins { IsPrefix (known_to place.old) (known_to place.new) }
{
    match see(place, desk) {
        Ok(glance) => answer_table(desk, glance, pairs, out),
        Err(refusal) => tell_refusal(out, refusal),
    }
}

/// Writes the lengths of all pairs of a table in the shown view, all of one version, and sends them. It takes 52 bytes a pair.
#[inline(never)]
pub(crate) fn table_shown<S: Served, W: Write>(
    place: &mut Option<Place<S::Naming>>,
    alloc: Global,
    desk: &Handle<S>,
    table: &Table,
    out: &mut CountedWriter<'_, W>,
) -> Result<(), Failed>
    ensures told { PutsSo W.contents (IsTabled S.Naming.origin (known_to place.new) None table.now) result out.old out.new }
    ensures begins { IsPrefix (known_to place.old) (known_to place.new) }
{
    match table.pairs(alloc) {
        Ok(pairs) => pairs_shown(place, desk, &pairs, out),
        Err(OutOfMemory) => tell_refusal(out, Refusal::OutOfMemory),
    }
}
