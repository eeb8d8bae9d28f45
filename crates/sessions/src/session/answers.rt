//! What a session answers to its lines.
ghost use Rattle.std.specs.Prelude.{◌≡◌, None, IfOk, IfErr, OnOk};
ghost use mathlib.Core.List.{IsPrefix};
ghost use Rattle.sessions.specs.Told.{IsLastUnserved};
ghost use Rattle.printing.specs.Writers.{OnlyWriterFails};
ghost use Rattle.sessions.specs.Saying.{PutsSo, SaysToLine, Stays};
ghost use Rattle.sessions.specs.Told.{known_to, HasShown, IsUnshown, ShowsLast};
ghost use Rattle.sessions.specs.Turns.{IsForgotten, IsFoundNear, IsQueried, IsRouted, IsTabled};

use crate::queries::around::{near_supposed, table_supposed};
use crate::queries::asking::{ask, copy_shown, look_shown};
use crate::queries::finding::{near_shown, table_shown};
use crate::queries::walking::{route_shown, route_supposed};
use crate::session::seeing::{learn_version, version_now, wait_until};
use crate::session::sessions::{Purpose, Session, SessionGroup};
use crate::session::supposing::query_supposed;
use crate::told::supposed::tell_forgotten;
use crate::told::telling::{tell_fault, tell_refusal, tell_reply, tell_state, tell_version};
use desk::{Handle, Naming, Near, Served, Shown};
use dimacs::Code;
use printing::{CountedWriter, Failed};
use roadnet::{Group, Refusal};
use rows::Query;
use session_lines::{Copies, Line, Table, is_end};
use std::alloc::Global;
use std::io::Write;

impl<N: Naming> Session<N> {
    /// What was shown when the session's last accepted group was; nothing if it has none.
    fn shown<S: Served<Naming = N>>(&self, desk: &Handle<S>) -> Result<Option<Shown>, Refusal>
        ensures shown { IfOk result (λ shown. HasShown N.origin self.now.last shown) }
        ensures causes { IfErr result (IsLastUnserved N.origin self.now.last) }
    {
        match &self.last {
            None => Ok(None),
            Some(last) => Ok(Some(desk.wait_shown(last.ticket())?)),
        }
    }

    /// Waits until the session's last accepted group is shown, if there is one, and learns it. Returns the version of a new glance, after groups among
    /// which that group has its number.
    fn wait<S: Served<Naming = N>>(&mut self, desk: &Handle<S>) -> Result<u64, Refusal>
        ensures shown { IfOk result (ShowsLast N.origin self.old.last (known_to self.new.place)) }
        ensures causes { IfErr result (IsUnshown N.origin self.old.last (known_to self.new.place)) }
        ensures stays { Stays self.old self.new }
    {
        let shown = self.shown(desk)?;
        match shown {
            None => version_now(&mut self.place, desk),
            Some(shown) => learn_version(&mut self.place, desk, &shown),
        }
    }

    /// Writes the answer to a query in what is supposed, if something is, and else in what is shown, and sends it out.
    fn query<S: Served<Naming = N>, W: Write>(
        &mut self,
        rt: &S::Runtime,
        alloc: Global,
        desk: &Handle<S>,
        query: Query,
        out: &mut CountedWriter<'_, W>,
    ) -> Result<(), Failed>
        ensures told { PutsSo W.contents (IsQueried N.origin (known_to self.new.place) self.old.supposed query) result out.old out.new }
        ensures stays { Stays self.old self.new }
    {
        match &mut self.supposed {
            Some(supposed) => query_supposed(rt, alloc, supposed, query, out),
            None => tell_reply(out, &ask(&mut self.place, desk, query)),
        }
    }

    /// Writes what is near a node in what is supposed, if something is, and else in what is shown, and sends it out.
    fn near<S: Served<Naming = N>, W: Write>(
        &mut self,
        rt: &S::Runtime,
        alloc: Global,
        desk: &Handle<S>,
        near: Near,
        out: &mut CountedWriter<'_, W>,
    ) -> Result<(), Failed>
        ensures told { PutsSo W.contents (IsFoundNear N.origin (known_to self.new.place) self.old.supposed near) result out.old out.new }
        ensures stays { Stays self.old self.new }
    {
        match &mut self.supposed {
            Some(supposed) => near_supposed(rt, alloc, supposed, near, out),
            None => near_shown(&mut self.place, desk, near, out),
        }
    }

    /// Writes a route in what is supposed, if something is, and else in what is shown, and sends it out.
    fn route<S: Served<Naming = N>, W: Write>(
        &mut self,
        rt: &S::Runtime,
        alloc: Global,
        desk: &Handle<S>,
        source: u64,
        target: u64,
        out: &mut CountedWriter<'_, W>,
    ) -> Result<(), Failed>
        ensures told { PutsSo W.contents (IsRouted N.origin (known_to self.new.place) self.old.supposed source target) result out.old out.new }
        ensures stays { Stays self.old self.new }
    {
        match &mut self.supposed {
            Some(supposed) => route_supposed(rt, alloc, supposed, source, target, out),
            None => route_shown(&mut self.place, desk, source, target, out),
        }
    }

    /// Writes the lengths of all pairs of a table in what is supposed, if something is, and else in what is shown, and sends them out.
    fn table<S: Served<Naming = N>, W: Write>(
        &mut self,
        rt: &S::Runtime,
        alloc: Global,
        desk: &Handle<S>,
        table: &Table,
        out: &mut CountedWriter<'_, W>,
    ) -> Result<(), Failed>
        ensures told { PutsSo W.contents (IsTabled N.origin (known_to self.new.place) self.old.supposed table.now) result out.old out.new }
        ensures stays { Stays self.old self.new }
    {
        match &mut self.supposed {
            Some(supposed) => table_supposed(rt, alloc, supposed, table, out),
            None => table_shown(&mut self.place, alloc, desk, table, out),
        }
    }

    /// Writes that what was supposed is no more, or that nothing was, and sends it out.
    fn forget<W: Write>(&mut self, out: &mut CountedWriter<'_, W>) -> Result<(), Failed>
        ensures told { PutsSo W.contents (IsForgotten self.old.supposed) result out.old out.new }
        ensures gone { self.new.supposed ≡ None }
        ensures last { self.new.last ≡ self.old.last }
        ensures receipts { self.new.receipts ≡ self.old.receipts }
        ensures group { self.new.group ≡ self.old.group }
        ensures place { self.new.place ≡ self.old.place }
    {
        match self.supposed.take() {
            Some(supposed) => {
                drop(supposed);
                tell_forgotten(out)
            }
            None => tell_fault(out, Code::BadLine),
        }
    }

    /// Writes the answer to a line outside of groups, if it has one, and sends it.
    fn answer_alone<S: Served<Naming = N>, C: Copies, W: Write>(
        &mut self,
        rt: &S::Runtime,
        alloc: Global,
        desk: &Handle<S>,
        copies: &C,
        line: Line,
        out: &mut CountedWriter<'_, W>,
    ) -> Result<(), Failed>
        requires { self.old.group ≡ None }
        ensures told { OnOk result (SaysToLine (C.copying copies.now) N.origin line self.old self.new W.contents out.old out.new) }
        ensures begins { IsPrefix (known_to self.old.place) (known_to self.new.place) }
        ensures fails { OnlyWriterFails result out.old out.new }
    {
        match line {
            Line::Ignored => Ok(()),
            Line::Quit => Ok(()),
            Line::Begin => {
                self.group = Some(SessionGroup::new(alloc, Purpose::ToCarryOut));
                Ok(())
            }
            Line::Suppose => {
                self.supposed = None;
                self.group = Some(SessionGroup::new(alloc, Purpose::ToSuppose));
                Ok(())
            }
            Line::End => tell_fault(out, Code::BadLine),
            Line::Command(command) => self.submit(desk, copies, Group::one(command), out),
            Line::Query(query) => self.query(rt, alloc, desk, query, out),
            Line::Look(look) => look_shown(&mut self.place, desk, look, out),
            Line::Near(near) => self.near(rt, alloc, desk, near, out),
            Line::Route { source, target } => self.route(rt, alloc, desk, source, target, out),
            Line::Table(table) => self.table(rt, alloc, desk, &table, out),
            Line::Unkept => tell_refusal(out, Refusal::OutOfMemory),
            Line::Copy(name) => copy_shown(&mut self.place, alloc, desk, copies, &name, out),
            Line::Wait => tell_version(out, self.wait(desk)),
            Line::Until(number) => tell_version(out, wait_until(&mut self.place, desk, number)),
            Line::State => tell_state(out, desk.state()),
            Line::Forget => self.forget(out),
            Line::Refused { code, grouped: _ } => tell_fault(out, code),
        }
    }

    /// Writes the answer to a line, if it has one, and sends it out: a line within a group has none but at its end; queries, nodes near one, routes and tables are answered in
    /// what is supposed, if something is. The one error is a failed write.
    pub(crate) fn answer<S: Served<Naming = N>, C: Copies, W: Write>(
        &mut self,
        rt: &S::Runtime,
        alloc: Global,
        desk: &Handle<S>,
        copies: &C,
        line: Line,
        out: &mut CountedWriter<'_, W>,
    ) -> Result<(), Failed>
        ensures told { OnOk result (SaysToLine (C.copying copies.now) N.origin line self.old self.new W.contents out.old out.new) }
        ensures begins { IsPrefix (known_to self.old.place) (known_to self.new.place) }
        ensures fails { OnlyWriterFails result out.old out.new }
    {
        let Some(group) = self.group.take() else {
            return self.answer_alone(rt, alloc, desk, copies, line, out);
        };
        if !is_end(&line) {
            self.group = Some(group.with(line));
            return Ok(());
        }
        let SessionGroup { purpose, draft } = group;
        match purpose {
            Purpose::ToCarryOut => self.end_carried(desk, copies, draft, out),
            Purpose::ToSuppose => self.end_supposed(alloc, desk, draft, out),
        }
    }
}
