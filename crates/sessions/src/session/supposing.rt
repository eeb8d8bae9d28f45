//! How a session supposes groups of commands, carried out on a network that it alone has, and what a query is told there.
ghost use Rattle.std.specs.Prelude.{◌≡◌, IfOk, IfErr, OnOk};
ghost use mathlib.Core.List.{IsPrefix};
ghost use Rattle.printing.specs.Writers.{OnlyWriterFails};
ghost use Rattle.session_lines.specs.Copying.{no_copying};
ghost use Rattle.sessions.specs.Saying.{EndsSo, PutsSo, Tells};
ghost use Rattle.sessions.specs.Supposing.{SupposesAfter, IsUnsupposed, IsSupposedAnswer};
ghost use Rattle.sessions.specs.Told.{known_to};

use crate::session::seeing::see;
use crate::session::sessions::{Purpose, Session};
use crate::told::supposed::{tell_found, tell_supposed};
use crate::told::telling::{tell_fault, tell_refusal};
use desk::{Handle, Naming, Place, Served};
use dimacs::Code;
use printing::{CountedWriter, Failed};
use roadnet::{Group, Refusal};
use rows::Query;
use session_lines::{Draft, NoGroup};
use std::alloc::Global;
use std::io::Write;
use std::thread::Threads;
use suppositions::Supposed;

/// Supposes the group, based on what is shown at this moment. It fails if no place or no view is available, and as the network refuses.
#[inline(never)]
fn suppose<S: Served>(
    alloc: Global,
    desk: &Handle<S>,
    place: &mut Option<Place<S::Naming>>,
    group: &Group,
) -> Result<Supposed, Refusal>
    ensures supposed { IfOk result (SupposesAfter S.Naming.origin (known_to place.new) group.now) }
    ensures causes { IfErr result (IsUnsupposed S.Naming.origin (known_to place.new) group.now) }
    ensures begins { IsPrefix (known_to place.old) (known_to place.new) }
{
    let glance = see(place, desk)?;
    Supposed::new(
        alloc,
        glance.version(),
        glance.network(),
        glance.back(),
        glance.width(),
        group,
    )
}

/// Writes the answer to a query in the supposed network, and sends it.
#[inline(never)]
pub(crate) fn query_supposed<R: Threads, W: Write>(
    rt: &R,
    alloc: Global,
    supposed: &mut Supposed,
    query: Query,
    out: &mut CountedWriter<'_, W>,
) -> Result<(), Failed>
    ensures told { PutsSo W.contents (IsSupposedAnswer supposed.old query) result out.old out.new }
    ensures supposed { supposed.new ≡ supposed.old }
{
    let version = supposed.version();
    match query {
        Query::Dist { source, target } => {
            let found = supposed.dist(rt, alloc, source, target);
            tell_found(out, version, &query, found)
        }
        Query::From { landmark, target } => {
            let found = supposed.from_landmark(rt, alloc, landmark, target);
            tell_found(out, version, &query, found)
        }
        Query::Lower {
            source: _,
            target: _,
        } => tell_fault(out, Code::BadLine),
    }
}

impl<N: Naming> Session<N> {
    /// Writes the answer to the end of a group that is to be supposed, and sends it: the code of the first line that has a fault, otherwise the version that it
    /// is based on, or why nothing is supposed.
    pub(crate) fn end_supposed<S: Served<Naming = N>, W: Write>(
        &mut self,
        alloc: Global,
        desk: &Handle<S>,
        draft: Draft,
        out: &mut CountedWriter<'_, W>,
    ) -> Result<(), Failed>
        // Whoever makes copies has no part in it.
        ensures told { OnOk result (Tells (EndsSo no_copying N.origin Purpose.ToSuppose draft) N.origin self.old self.new W.contents out.old out.new) }
        ensures group { self.new.group ≡ self.old.group }
        ensures begins { IsPrefix (known_to self.old.place) (known_to self.new.place) }
        ensures fails { OnlyWriterFails result out.old out.new }
    {
        self.supposed = None;
        let group = match draft.end() {
            Ok(group) => group,
            Err(NoGroup::Fault(code)) => return tell_fault(out, code),
            Err(NoGroup::NoMemory) => return tell_refusal(out, Refusal::OutOfMemory),
        };
        match suppose(alloc, desk, &mut self.place, &group) {
            Ok(made) => {
                let version = made.version();
                self.supposed = Some(made);
                tell_supposed(out, version)
            }
            Err(refusal) => tell_refusal(out, refusal),
        }
    }
}
