// What the callers of a desk share.
ghost use Rattle.std.specs.Prelude.{◌≡◌, ◌≤◌, ◌+◌, ◌∷◌, [], length, None, IfOk, IfErr, IfSome, IsOk, IsSome};
ghost use mathlib.Core.List.{IsPrefix};
ghost use Rattle.machine.specs.Laws.{IsAt};
ghost use Rattle.roadnet.specs.Net.{IsNode};
ghost use Rattle.rows.specs.declared.queries.Query.TheVariants.{Dist};
ghost use Rattle.rows.specs.Replies.{query_refusal_of, IsDistance, IsRight};
ghost use Rattle.desk.specs.Readings.{IsNoPlace, IsNoReader, IsViewAfter};
ghost use Rattle.desk.specs.Turns.{IsRefusedOn, IsUnserved, IsUntaken, WereShown};

use crate::handles::refused::Refused;
use crate::handles::shelves::Missed;
use crate::lock::shared::Shared;
use crate::readers::places::{Glance, Place};
use crate::readers::reader::Reader;
use crate::served::Served;
use deltastep::Workspace;
use history::Front;
use office::{Basis, Receipt, Ticket};
use published::Shown;
use relax::{CHUNK, Crew};
use roadnet::{Command, Group, OutOfMemory, Refusal};
use rows::{Reply, distance_in};
use std::alloc::Global;
use std::sync::Arc;
use std::sync::atomic::Ordering;
use std::time::{Duration, Instant};

/// A desk without its threads, for callers in other threads. The desk lends it, and so offers each of its calls.
///
/// A handle may outlive its desk. Once the desk is closed, each call of the handle is refused (61), and none waits.
#[derive(Drop)]
pub struct Handle<S: Served> {
    pub(crate) rt: S::Runtime,
    pub(crate) alloc: Global,
    pub(crate) shared: Arc<Shared<S>>,
    /// How long a caller waits for a version.
    pub(crate) patience: Duration,
    /// When the desk was started, if the clock could be read.
    pub(crate) since: Option<Instant>,
    /// How many pairs of pipes it serves.
    pub(crate) pairs: u64,
}

impl<S: Served> Handle<S> {
    /// Another handle of the desk, for a thread of its own. The only error is lack of memory.
    pub fn again(&self) -> Result<Handle<S>, OutOfMemory> {
        let Ok(shared) = Arc::try_clone(&self.shared) else {
            return Err(OutOfMemory);
        };
        Ok(Handle {
            rt: self.rt,
            alloc: self.alloc,
            shared,
            patience: self.patience,
            since: self.since,
            pairs: self.pairs,
        })
    }

    /// Accepts the group with the next number, and returns a ticket for it. The group is not acknowledged yet.
    ///
    /// It is refused with 61 if the desk is halted, and otherwise as the keeper refuses. The reason may be groups that were accepted before, which need not
    /// be durable yet: whoever reports the refusal settles its basis first.
    pub fn offer(&self, group: Group) -> Result<Ticket, Refused>
        ensures origin { IfOk result (λ ticket. ticket.origin ≡ S.Naming.origin) }
        ensures group { IfOk result (λ ticket. ticket.ticket.group ≡ group) }
        ensures refused { IfErr result (λ refused. IsRefusedOn S.Naming.origin group refused.refusal refused.basis) }
    {
        let ticket = self.shared.held.lock(&self.rt).offer(group)?;
        self.shared.submitted.notify_one();
        Ok(ticket)
    }

    /// The same, with a refusal that has no basis.
    pub fn submit_group(&self, group: Group) -> Result<Ticket, Refusal>
        ensures origin { IfOk result (λ ticket. ticket.origin ≡ S.Naming.origin) }
        ensures group { IfOk result (λ ticket. ticket.ticket.group ≡ group) }
        ensures causes { IfErr result (IsUntaken S.Naming.origin group) }
    {
        match self.offer(group) {
            Ok(ticket) => Ok(ticket),
            Err(Refused { refusal, basis: _ }) => Err(refusal),
        }
    }

    /// Accepts the command as a group of one, as `submit_group` does.
    pub fn submit(&self, command: Command) -> Result<Ticket, Refusal>
        ensures origin { IfOk result (λ ticket. ticket.origin ≡ S.Naming.origin) }
        ensures group { IfOk result (λ ticket. ticket.ticket.group ≡ command ∷ []) }
        ensures causes { IfErr result (IsUntaken S.Naming.origin (command ∷ [])) }
    {
        self.submit_group(Group::one(command))
    }

    /// Waits until the ticket's group is durable: then no stop takes it back. The receipt is for the ticket's number and group.
    ///
    /// It fails with 45 if the store broke before that, and with 61 if the flusher ended before that. Then the ticket is handed back.
    pub fn settle(&self, ticket: Ticket) -> Result<Receipt, (Refusal, Ticket)>
        requires { ticket.origin ≡ S.Naming.origin }
        ensures receipt { IfOk result (λ receipt. receipt ≡ ticket) }
        ensures handed_back { IfErr result (λ refused. refused.1 ≡ ticket) }
        ensures causes { IfErr result (λ refused. IsUnserved S.Naming.origin ticket.ticket.number refused.0) }
    {
        let mut guard = self.wait_settled(ticket.ticket().number);
        guard.settle(ticket)
    }

    /// Waits until the groups of a basis are durable: then no stop takes them back. Returns a front of the desk's history that has them, as acknowledged.
    ///
    /// It fails with 45 if the store broke before that, and with 61 if the flusher ended before that.
    pub fn settle_basis(&self, basis: &Basis) -> Result<Front, Refusal>
        requires { basis.now.origin ≡ S.Naming.origin }
        ensures origin { IfOk result (λ front. front.origin ≡ S.Naming.origin) }
        ensures begins { IfOk result (λ front. IsPrefix basis.now.groups front.groups) }
        ensures acknowledged { IfOk result (λ front. S.Naming.origin.version + length basis.now.groups ≤ front.acknowledged) }
        ensures causes { IfErr result (IsUnserved S.Naming.origin (S.Naming.origin.version + length basis.now.groups)) }
    {
        let mut guard = self.wait_settled(basis.version());
        guard.settle_basis(basis)
    }

    /// Waits until a view is shown that has the ticket's group, and returns what is shown.
    ///
    /// It fails with 45 if the store broke before the group was durable, and with 61 if the builder ended before that.
    pub fn wait_shown(&self, ticket: &Ticket) -> Result<Shown, Refusal>
        requires { ticket.now.origin ≡ S.Naming.origin }
        ensures origin { IfOk result (λ shown. shown.origin ≡ S.Naming.origin) }
        ensures there { IfOk result (λ shown. IsAt S.Naming.origin.version shown.groups ticket.now.ticket) }
        ensures state { IfOk result (λ shown. WereShown S.Naming.origin shown.groups) }
        ensures causes { IfErr result (IsUnserved S.Naming.origin ticket.now.ticket.number) }
    {
        let guard = self.wait_seen(ticket.ticket().number);
        guard.shown_since(ticket)
    }

    /// A reader of the shown views. It has looked once, and knows the groups after which the view that it saw is shown.
    ///
    /// It fails with 60 if each of the 64 places is taken. Then it may fail with 11 for lack of memory, and with 61 if the copy cannot be entered, which does
    /// not happen while the desk exists.
    pub fn reader(&self) -> Result<Reader<S::Naming>, Refusal>
        ensures origin { IfOk result (λ reader. reader.known.origin ≡ S.Naming.origin) }
        ensures view { IfOk result (λ reader. IsViewAfter S.Naming.origin reader.known.groups reader.view) }
        ensures causes { IfErr result IsNoReader }
    {
        let reader = self.shared.held.lock(&self.rt).reader()?;
        Reader::new(self.alloc, reader)
    }

    /// A reader place, for whoever looks now and then: it has seen no group, and holds no view. It is one of the 64 that `reader` speaks of.
    ///
    /// It fails with 60 if each of them is taken, and with 61 if the desk is closed.
    pub fn place(&self) -> Result<Place<S::Naming>, Refusal>
        ensures { IfErr result IsNoPlace }
    {
        let reader = self.shared.held.lock(&self.rt).reader()?;
        Ok(Place::new(reader))
    }

    /// A client has come: `state` counts it until it leaves.
    pub fn client_came(&self) {
        self.shared.clients.fetch_add(1, Ordering::SeqCst);
    }

    /// A client that had come has left.
    pub fn client_went(&self) {
        self.shared.clients.fetch_sub(1, Ordering::SeqCst);
    }

    /// No more groups are accepted: the flusher makes durable what is pending, the builder shows the last view, and both end. It takes no memory.
    pub fn halt(&self) {
        self.shared.halt(&self.rt)
    }

    /// What the row of the source says, if it is kept for all callers; otherwise what a search needs.
    fn kept_reply(
        &self,
        glance: &Glance<S::Naming>,
        source: u32,
        target: u64,
    ) -> Result<Reply, Missed>
        ensures { IfOk result (λ reply. IsNode glance.now.view.network target → IsDistance glance.now.view.network source target reply) }
    {
        let mut rows = self.shared.rows.lock(&self.rt);
        match rows.row(glance, source) {
            Some(row) => Ok(distance_in(&row, target)),
            None => Err(rows.missed(glance, source)),
        }
    }

    /// What a new row of the source says. While it is made no lock is held; then it is kept for all callers.
    fn new_reply(
        &self,
        glance: &Glance<S::Naming>,
        source: u32,
        target: u64,
        mut workspace: Workspace,
    ) -> Result<Reply, OutOfMemory>
        requires { IsNode glance.now.view.network source }
        ensures { IfOk result (λ reply. IsNode glance.now.view.network target → IsDistance glance.now.view.network source target reply) }
    {
        let crew = Crew::new(&self.rt, CHUNK);
        let row = glance
            .asker()
            .row(self.alloc, source, &crew, &mut workspace)?;
        let reply = distance_in(&row, target);
        let mut rows = self.shared.rows.lock(&self.rt);
        rows.keep(glance, source, row);
        rows.leave(workspace);
        Ok(reply)
    }

    /// What a search that ends at the target finds, led by the rows of the view's landmarks. While it runs no lock is held. It keeps no row.
    fn stopped_reply(
        &self,
        glance: &Glance<S::Naming>,
        source: u32,
        target: u32,
        mut workspace: Workspace,
    ) -> Result<Reply, OutOfMemory>
        requires source { IsNode glance.now.view.network source }
        requires target { IsNode glance.now.view.network target }
        ensures { IfOk result (IsDistance glance.now.view.network source target) }
    {
        let crew = Crew::new(&self.rt, CHUNK);
        let asker = glance.asker();
        let reply = asker.distance(self.alloc, source, target, &crew, &mut workspace)?;
        let mut rows = self.shared.rows.lock(&self.rt);
        rows.leave(workspace);
        Ok(reply)
    }

    /// What a search finds: a whole row if the source was asked before, otherwise one that ends at the target.
    fn searched_reply(
        &self,
        glance: &Glance<S::Naming>,
        source: u32,
        target: u32,
        missed: Missed,
    ) -> Result<Reply, OutOfMemory>
        requires source { IsNode glance.now.view.network source }
        requires target { IsNode glance.now.view.network target }
        ensures { IfOk result (IsDistance glance.now.view.network source target) }
    {
        let Missed { workspace, again } = missed;
        if again {
            return self.new_reply(glance, source, u64::from(target), workspace);
        }
        self.stopped_reply(glance, source, target, workspace)
    }

    /// The reply to `Dist` in a view of this desk: from a row that is kept for all callers; if the source has none, by a search that ends at the target,
    /// led by the rows of the landmarks; and if the source was asked before in this view, by a new row. The desk keeps up to 64 of the rows that queries of
    /// all handles made, of 4 or 8 bytes a node each, all of the latest view that was asked; and the memory of up to four searches, of 14 to 39 bytes a
    /// node each.
    ///
    /// The only error is lack of memory for a search; a refused query takes none.
    pub fn dist(
        &self,
        glance: &Glance<S::Naming>,
        source: u64,
        target: u64,
    ) -> Result<Reply, OutOfMemory>
        ensures right { IfOk result (IsRight glance.now.view.network (Dist source target)) }
        ensures refused { IsSome (query_refusal_of glance.now.view.network (Dist source target)) → IsOk result }
    {
        if !glance.are_nodes(source, target) {
            return Ok(Reply::Refused(Refusal::NoSuchNode));
        }
        match self.kept_reply(glance, source as u32, target) {
            Ok(reply) => Ok(reply),
            Err(missed) => self.searched_reply(glance, source as u32, target as u32, missed),
        }
    }
}
