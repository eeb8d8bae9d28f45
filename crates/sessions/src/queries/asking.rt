//! What a session answers from what is shown: queries, looks and copies.
ghost use Rattle.std.specs.Prelude.{◌≡◌, IfOk, IfErr};
ghost use mathlib.Core.List.{IsPrefix};
ghost use Rattle.published.specs.Showing.{IsUnseen};
ghost use Rattle.rows.specs.Replies.{IsRight};
ghost use Rattle.session_lines.specs.SessionLines.{name_of};
ghost use Rattle.session_lines.specs.Copying.{IsUnmade};
ghost use Rattle.sessions.specs.Saying.{PutsSo};
ghost use Rattle.sessions.specs.Told.{known_to, AnswersAfter, IsCopied, IsLookTold, IsUnsighted, Replies};

use crate::session::seeing::see;
use crate::told::telling::{tell_copied, tell_fault, tell_look, tell_refusal};
use desk::{Glance, Handle, Naming, Place, Served};
use dimacs::Code;
use machine::{Answer, Replied};
use printing::{CountedWriter, Failed, Look};
use roadnet::Refusal;
use rows::{Query, Reply};
use session_lines::{Copies, Name};
use std::alloc::Global;
use std::io::Write;

/// The reply to a query in the view that was seen. It fails for lack of memory for a new row (11).
fn reply_by<S: Served>(
    desk: &Handle<S>,
    glance: &Glance<S::Naming>,
    query: Query,
) -> Result<Reply, Refusal>
    ensures right { IfOk result (IsRight glance.now.view.network query) }
    ensures causes { IfErr result IsUnseen }
{
    match query {
        Query::Dist { source, target } => match desk.dist(glance, source, target) {
            Ok(reply) => Ok(reply),
            Err(_) => Err(Refusal::OutOfMemory),
        },
        Query::From { landmark, target } => Ok(glance.from_landmark(landmark, target)),
        Query::Lower { source, target } => Ok(glance.lower(source, target)),
    }
}

/// The reply to a query, from what is shown at this moment, with its version. It fails if no place or no view is available (60, 11, 61), and for lack of
/// memory for a new row (11). Once there is a reply, the view is no longer held.
fn answer_by<S: Served>(
    place: &mut Option<Place<S::Naming>>,
    desk: &Handle<S>,
    query: Query,
) -> Result<Answer, Refusal>
    ensures right { IfOk result (AnswersAfter S.Naming.origin (known_to place.new) query) }
    ensures causes { IfErr result (IsUnsighted (known_to place.new)) }
    ensures begins { IsPrefix (known_to place.old) (known_to place.new) }
{
    let glance = see(place, desk)?;
    let version = glance.version();
    let reply = reply_by(desk, &glance, query)?;
    Ok(Answer { version, reply })
}

/// The reply to a query, from a glance of this moment: it is right in the network of the version that it names, which comes after groups that begin with
/// everything that was seen and learned at the place. Or the refusal of the glance, the place or the row.
#[inline(never)]
pub(crate) fn ask<S: Served>(
    place: &mut Option<Place<S::Naming>>,
    desk: &Handle<S>,
    query: Query,
) -> Replied
    ensures right { Replies S.Naming.origin (known_to place.new) query result }
    ensures begins { IsPrefix (known_to place.old) (known_to place.new) }
{
    match answer_by(place, desk, query) {
        Ok(answer) => Replied::Answered { query, answer },
        Err(refusal) => Replied::Refused { refusal },
    }
}

/// Writes what the shown network has of what is asked for, and sends it.
#[inline(never)]
pub(crate) fn look_shown<S: Served, W: Write>(
    place: &mut Option<Place<S::Naming>>,
    desk: &Handle<S>,
    look: Look,
    out: &mut CountedWriter<'_, W>,
) -> Result<(), Failed>
    ensures told { PutsSo W.contents (IsLookTold S.Naming.origin (known_to place.new) look) result out.old out.new }
    ensures begins { IsPrefix (known_to place.old) (known_to place.new) }
{
    match see(place, desk) {
        Ok(glance) => tell_look(out, &glance, look),
        Err(refusal) => tell_refusal(out, refusal),
    }
}

/// Makes a copy of what is seen at a glance, under this name, and returns its version. It fails if the copy is not made (46, 43, 10, 11).
#[inline(never)]
fn copy_by<N: Naming, C: Copies>(
    alloc: Global,
    copies: &C,
    name: &Name,
    glance: &Glance<N>,
) -> Result<u64, Refusal>
    ensures version { IfOk result (λ version. version ≡ glance.now.view.version) }
    ensures made { IfOk result ((C.copying copies.now).made (name_of name.now) glance.now.view.network) }
    ensures refused { IfErr result IsUnmade }
{
    let version = glance.version();
    copies.copy(alloc, name.bytes(), glance.network(), version)?;
    Ok(version)
}

/// Makes a copy of the shown network under this name, writes its version, and sends it. If no copies are made, the line has a fault.
pub(crate) fn copy_shown<S: Served, C: Copies, W: Write>(
    place: &mut Option<Place<S::Naming>>,
    alloc: Global,
    desk: &Handle<S>,
    copies: &C,
    name: &Name,
    out: &mut CountedWriter<'_, W>,
) -> Result<(), Failed>
    ensures told { PutsSo W.contents (IsCopied (C.copying copies.now) S.Naming.origin (known_to place.new) (name_of name.now)) result out.old out.new }
    ensures begins { IsPrefix (known_to place.old) (known_to place.new) }
{
    if !copies.are_made() {
        return tell_fault(out, Code::BadLine);
    }
    match see(place, desk) {
        Ok(glance) => tell_copied(out, copy_by(alloc, copies, name, &glance)),
        Err(refusal) => tell_refusal(out, refusal),
    }
}
