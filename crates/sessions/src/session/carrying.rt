//! How a session has groups carried out.
ghost use Rattle.std.specs.Prelude.{◌≡◌, ◌∷◌, [], Some, OnOk};
ghost use Rattle.std.specs.Option.{ForSome};
ghost use Rattle.printing.specs.Writers.{OnlyWriterFails};
ghost use Rattle.sessions.specs.Saying.{EndsSo, Tells};
ghost use Rattle.sessions.specs.Told.{Carried, HasAllOf, HasMore, IsDeclinedOn};
ghost use Rattle.sessions.specs.Turns.{IsGroupAnswer};

use crate::session::sessions::{Accepted, Purpose, Session};
use crate::told::telling::{tell_asks_alone, tell_fault, tell_refusal, tell_reply};
use desk::{Handle, Naming, Receipt, Refused, Served, Ticket};
use history::Front;
use machine::Replied;
use printing::{CountedWriter, Failed};
use roadnet::{Group, Refusal};
use session_lines::{Copies, Draft, NoGroup};
use std::io::Write;

/// A front of the history that has what an earlier one had, if there was one, and this receipt.
fn with_receipt(had: &Option<Front>, receipt: &Receipt) -> Front
    requires { ForSome had.now (λ front. front.origin ≡ receipt.now.origin) }
    ensures origin { result.origin ≡ receipt.now.origin }
    ensures kept { HasMore receipt.now.origin had.now (Some result) (receipt.now.ticket ∷ []) }
{
    match had {
        Some(front) => front.joined(receipt.front()),
        None => receipt.front().again(),
    }
}

/// A front of the history that has what an earlier one had, if there was one, and all groups that are acknowledged in this one.
fn with_front(had: &Option<Front>, front: Front) -> Front
    requires { ForSome had.now (λ had. had.origin ≡ front.origin) }
    ensures origin { result.origin ≡ front.origin }
    ensures kept { HasAllOf front had.now (Some result) }
{
    match had {
        Some(had) => had.joined(&front),
        None => front,
    }
}

impl<N: Naming> Session<N> {
    /// Settles the accepted group. Then the reply has the number of a receipt, or says why the group is not settled.
    fn settle<S: Served<Naming = N>>(&mut self, desk: &Handle<S>, ticket: Ticket) -> Replied
        requires { ticket.origin ≡ N.origin }
        ensures carried { Carried N.origin self.old.last self.new.last self.old.receipts self.new.receipts ticket.ticket.group result }
        ensures place { self.new.place ≡ self.old.place }
        ensures group { self.new.group ≡ self.old.group }
        ensures supposed { self.new.supposed ≡ self.old.supposed }
    {
        match desk.settle(ticket) {
            Ok(receipt) => {
                let version = receipt.ticket().ticket().number;
                self.receipts = Some(with_receipt(&self.receipts, &receipt));
                self.last = Some(Accepted::Settled(receipt));
                Replied::Durable { version }
            }
            Err((refusal, ticket)) => {
                self.last = Some(Accepted::Unsettled(ticket));
                Replied::Refused { refusal }
            }
        }
    }

    /// Settles the groups on which a refusal depends, and then returns that refusal; or, if they are not settled, the reason for that.
    fn settle_refusal<S: Served<Naming = N>>(
        &mut self,
        desk: &Handle<S>,
        refused: Refused,
    ) -> Refusal
        requires { ForSome refused.basis (λ basis. basis.origin ≡ N.origin) }
        ensures told { IsDeclinedOn N.origin refused.refusal refused.basis self.old.receipts self.new.receipts result }
        ensures last { self.new.last ≡ self.old.last }
        ensures place { self.new.place ≡ self.old.place }
        ensures group { self.new.group ≡ self.old.group }
        ensures supposed { self.new.supposed ≡ self.old.supposed }
    {
        let Refused { refusal, basis } = refused;
        let Some(basis) = basis else {
            return refusal;
        };
        match desk.settle_basis(&basis) {
            Ok(front) => {
                self.receipts = Some(with_front(&self.receipts, front));
                refusal
            }
            Err(unserved) => unserved,
        }
    }

    /// The reply to a group: `ok N`, if the session then has a receipt of the desk for it with that number; or its refusal, if all groups on which that
    /// depends are durable; or why it, or one of these, is not settled.
    fn carry_out<S: Served<Naming = N>>(&mut self, desk: &Handle<S>, group: Group) -> Replied
        ensures carried { Carried N.origin self.old.last self.new.last self.old.receipts self.new.receipts group result }
        ensures place { self.new.place ≡ self.old.place }
        ensures group { self.new.group ≡ self.old.group }
        ensures supposed { self.new.supposed ≡ self.old.supposed }
    {
        match desk.offer(group) {
            Ok(ticket) => self.settle(desk, ticket),
            Err(refused) => Replied::Refused {
                refusal: self.settle_refusal(desk, refused),
            },
        }
    }

    /// Writes what a group comes to, and sends it out; in a session that asks alone that it is refused (64).
    #[inline(never)]
    pub(crate) fn submit<S: Served<Naming = N>, C: Copies, W: Write>(
        &mut self,
        desk: &Handle<S>,
        copies: &C,
        group: Group,
        out: &mut CountedWriter<'_, W>,
    ) -> Result<(), Failed>
        ensures told { OnOk result (Tells (IsGroupAnswer (C.copying copies.now).changes N.origin group) N.origin self.old self.new W.contents out.old out.new) }
        ensures place { self.new.place ≡ self.old.place }
        ensures group { self.new.group ≡ self.old.group }
        ensures fails { OnlyWriterFails result out.old out.new }
    {
        if !copies.may_change() {
            return tell_asks_alone(out);
        }
        tell_reply(out, &self.carry_out(desk, group))
    }

    /// Writes the answer to the end of a group that is to be carried out, and sends it out: the code of the first line that has a fault, else what the group
    /// comes to.
    pub(crate) fn end_carried<S: Served<Naming = N>, C: Copies, W: Write>(
        &mut self,
        desk: &Handle<S>,
        copies: &C,
        draft: Draft,
        out: &mut CountedWriter<'_, W>,
    ) -> Result<(), Failed>
        ensures told { OnOk result (Tells (EndsSo (C.copying copies.now) N.origin Purpose.ToCarryOut draft) N.origin self.old self.new W.contents out.old out.new) }
        ensures place { self.new.place ≡ self.old.place }
        ensures group { self.new.group ≡ self.old.group }
        ensures fails { OnlyWriterFails result out.old out.new }
    {
        match draft.end() {
            Ok(group) => self.submit(desk, copies, group, out),
            Err(NoGroup::Fault(code)) => tell_fault(out, code),
            Err(NoGroup::NoMemory) => tell_refusal(out, Refusal::OutOfMemory),
        }
    }
}
