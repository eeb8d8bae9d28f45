// What the threads of a desk and its callers are to do, by the numbers of what lies under its lock.
ghost use Rattle.std.specs.Prelude.{◌≡◌, ◌≤◌, ◌<◌, ◌+◌, length, Ok, Err, None, false, true, IfOk, IfErr, IsOk, IsSome, OnErr, OnOk};
ghost use Rattle.std.specs.Option.{ForSome};
ghost use mathlib.Core.List.{IsPrefix};
ghost use Rattle.roadnet.specs.declared.refusals.Refusal.TheVariants.{Closed as closed, Broken as broken, NoReaderPlace as no_reader_place};
ghost use Rattle.machine.specs.Calls.{Submits};
ghost use Rattle.machine.specs.Laws.{IsAt};
ghost use Rattle.machine.specs.Machine.{groups_to};
ghost use Rattle.office.specs.Offices.{RunsFrom};
ghost use Rattle.desk.specs.declared.lock.turns.FlusherTurn.TheVariants.{End as flusher_end};
ghost use Rattle.desk.specs.declared.lock.turns.BuilderTurn.TheVariants.{End as builder_end};
ghost use Rattle.desk.specs.Readings.{IsNoPlace};
ghost use Rattle.desk.specs.Turns.{is_checkpoint_due, flusher_turn_of, builder_turn_of, is_unsettled, is_lost, is_unseen, IsRefusedBy, IsRefusedOn, IsUnserved, WereShown};

use crate::handles::refused::Refused;
use crate::lock::held::Held;
use disk::Disk;
use history::Front;
use office::{Basis, Naming, Office, Receipt, Ticket};
use published::{Shown, ShownReader};
use roadnet::{Group, Refusal};
use std::sync::atomic::{AtomicU64, Ordering};

/// What the flusher is to do.
#[derive(Clone, Copy, Debug, PartialEq, Eq)]
pub(crate) enum FlusherTurn {
    Rest,
    /// The first pending groups are made durable. The versions up to this one are.
    Flush { durable: u64 },
    /// A step of a checkpoint is made. The versions up to this one are durable.
    Checkpoint { durable: u64 },
    End,
}

/// What the builder is to do.
#[derive(Clone, Copy, Debug, PartialEq, Eq)]
pub(crate) enum BuilderTurn {
    Rest,
    /// A view of what is durable is built and shown. The versions up to this one are durable.
    Build { durable: u64 },
    End,
}

/// What holds of an office each time the lock is got: the keeper's machine runs from the desk's network and version.
pub(crate) fn runs<N: Naming, D: Disk>(office: &Office<N, D>)
    ensures { RunsFrom N.origin office.now.machine }
{
    let _ = office.durable();
}

/// Whether at least half of the journal's pages, rounded up, are unchecked.
fn is_checkpoint_due<N: Naming, D: Disk>(office: &Office<N, D>) -> bool
    ensures { result ≡ is_checkpoint_due office.now.machine }
{
    2 * u64::from(office.unchecked()) >= u64::from(office.journal_pages())
}

/// Whether this number is not durable and never will be.
pub(crate) fn is_lost<N: Naming, D: Disk>(office: &Office<N, D>, number: u64) -> bool
    ensures { result ≡ is_lost office.now.machine number }
{
    office.durable() < number && office.broken()
}

/// Why a caller that waited for a number does not get it: it is lost (45), or the thread that was waited for has ended (61).
fn unserved<N: Naming, D: Disk>(office: &Office<N, D>, number: u64) -> Refusal
    ensures lost { result ≡ broken → is_lost office.now.machine number ≡ true }
    ensures ended { result ≡ closed → is_lost office.now.machine number ≡ false }
    ensures causes { IsUnserved N.origin number result }
{
    runs(office);
    if is_lost(office, number) {
        return Refusal::Broken;
    }
    Refusal::Closed
}

impl<N: Naming, D: Disk> Held<Office<N, D>> {
    /// What the flusher is to do: after a flush, a step of a checkpoint if one is due; otherwise flush while groups are pending; then end if the desk is
    /// halted; then continue a checkpoint that is due.
    pub(crate) fn flusher_turn(&self, has_flushed: bool) -> FlusherTurn
        ensures there { ForSome self.now.office (λ office. result ≡ flusher_turn_of office.machine has_flushed self.now.halted) }
        ensures taken { self.now.office ≡ None → result ≡ flusher_end }
    {
        let Some(office) = &self.office else {
            return FlusherTurn::End;
        };
        let durable = office.durable();
        let due = is_checkpoint_due(office);
        if has_flushed && due {
            return FlusherTurn::Checkpoint { durable };
        }
        if office.pending() > 0 {
            return FlusherTurn::Flush { durable };
        }
        if self.halted {
            return FlusherTurn::End;
        }
        if due {
            return FlusherTurn::Checkpoint { durable };
        }
        FlusherTurn::Rest
    }

    /// What the builder is to do. If the desk is halted, it rests until nothing more becomes durable, so that then only the last view is built. Otherwise
    /// it shows what is durable. It ends if nothing more becomes durable.
    pub(crate) fn builder_turn(&self) -> BuilderTurn
        ensures there { ForSome self.now.office (λ office. result ≡ builder_turn_of office.machine self.now.halted self.now.flusher_ended) }
        ensures taken { self.now.office ≡ None → result ≡ builder_end }
    {
        let Some(office) = &self.office else {
            return BuilderTurn::End;
        };
        if self.halted && !self.flusher_ended {
            return BuilderTurn::Rest;
        }
        let durable = office.durable();
        if office.shown() != durable {
            return BuilderTurn::Build { durable };
        }
        if self.flusher_ended {
            return BuilderTurn::End;
        }
        BuilderTurn::Rest
    }

    /// The flusher has ended: what is durable is the last version, which is noted here.
    pub(crate) fn end_flusher(&mut self, last: &AtomicU64)
        ensures ended { self.new.flusher_ended ≡ true }
        ensures same { self.new.office ≡ self.old.office }
    {
        if let Some(office) = &self.office {
            last.store(office.durable(), Ordering::SeqCst);
        }
        self.flusher_ended = true;
    }

    /// Whether the caller that settles this number has to wait.
    pub(crate) fn is_unsettled(&self, number: u64) -> bool
        ensures there { ForSome self.now.office (λ office. result ≡ is_unsettled office.machine self.now.flusher_ended number) }
        ensures taken { self.now.office ≡ None → result ≡ false }
    {
        let Some(office) = &self.office else {
            return false;
        };
        office.durable() < number && !office.broken() && !self.flusher_ended
    }

    /// Whether a caller that waits for a view with this number's group has to go on waiting.
    pub(crate) fn is_unseen(&self, number: u64) -> bool
        ensures there { ForSome self.now.office (λ office. result ≡ is_unseen office.machine self.now.builder_ended number) }
        ensures taken { self.now.office ≡ None → result ≡ false }
    {
        let Some(office) = &self.office else {
            return false;
        };
        office.shown() < number && !is_lost(office, number) && !self.builder_ended
    }

    /// Accepts a group, unless the desk is halted or closed.
    pub(crate) fn offer(&mut self, group: Group) -> Result<Ticket, Refused>
        ensures origin { IfOk result (λ ticket. ticket.origin ≡ N.origin) }
        ensures group { IfOk result (λ ticket. ticket.ticket.group ≡ group) }
        ensures halted { OnOk result (self.old.halted ≡ false) }
        ensures taken { OnOk result (IsSome self.old.office) }
        // It is a step of the machine of this office.
        ensures accepted { IfOk result (λ ticket. ForSome self.old.office (λ was. ForSome self.new.office (λ is. Submits was.machine group (Ok ticket.ticket) is.machine))) }
        ensures refused { IfErr result (λ refused. IsRefusedOn N.origin group refused.refusal refused.basis) }
        // What is refused on a basis the machine of this office refuses, after the groups that it has accepted.
        ensures own { IfErr result (λ refused. ForSome refused.basis (λ basis. ForSome self.old.office (λ office. IsRefusedBy office.machine group refused.refusal basis))) }
        ensures basis { IfErr result (λ refused. IsSome self.old.office → self.old.halted ≡ false → IsSome refused.basis) }
        ensures same { OnErr result (self.new.office ≡ self.old.office) }
    {
        let Some(office) = &mut self.office else {
            return Err(Refused::closed());
        };
        if self.halted {
            return Err(Refused::closed());
        }
        runs(office);
        match office.submit_group(group) {
            Ok(ticket) => Ok(ticket),
            Err(refusal) => Err(Refused {
                refusal,
                basis: Some(office.basis()),
            }),
        }
    }

    /// A beginning of the desk's history that has the groups of a basis, as acknowledged, where they are durable. Who calls it has waited for them.
    ///
    /// Refused is a basis that isn't: with 45 where the store is broken, else with 61. Refused so is an office that was taken out (61).
    pub(crate) fn settle_basis(&mut self, basis: &Basis) -> Result<Front, Refusal>
        requires origin { basis.now.origin ≡ N.origin }
        requires waited { ForSome self.old.office (λ office. is_unsettled office.machine self.old.flusher_ended (N.origin.version + length basis.now.groups) ≡ false) }
        ensures origin { IfOk result (λ front. front.origin ≡ N.origin) }
        ensures begins { IfOk result (λ front. IsPrefix basis.now.groups front.groups) }
        ensures acknowledged { IfOk result (λ front. N.origin.version + length basis.now.groups ≤ front.acknowledged) }
        ensures refused { IfErr result (λ _. ForSome self.old.office (λ office. office.machine.durable < N.origin.version + length basis.now.groups)) }
        ensures lost { IfErr result (λ refusal. refusal ≡ broken → ForSome self.old.office (λ office. is_lost office.machine (N.origin.version + length basis.now.groups) ≡ true)) }
        ensures ended { IfErr result (λ refusal. refusal ≡ closed → ForSome self.old.office (λ office. (is_lost office.machine (N.origin.version + length basis.now.groups) ≡ false) × (self.old.flusher_ended ≡ true))) }
        ensures causes { IfErr result (IsUnserved N.origin (N.origin.version + length basis.now.groups)) }
        ensures taken { self.old.office ≡ None → result ≡ Err closed }
        ensures same { self.new.office ≡ self.old.office }
    {
        let Some(office) = &mut self.office else {
            return Err(Refusal::Closed);
        };
        match office.acknowledge(basis) {
            Some(front) => Ok(front),
            None => Err(unserved(office, basis.version())),
        }
    }

    /// A receipt for the ticket, where its group is durable. Who calls it has waited for that.
    ///
    /// Refused is a number that isn't: with 45 where the store is broken, else with 61, which so is told of no group that is lost. Refused so is an
    /// office that was taken out (61). The ticket is handed back then.
    pub(crate) fn settle(&mut self, ticket: Ticket) -> Result<Receipt, (Refusal, Ticket)>
        requires origin { ticket.origin ≡ N.origin }
        requires waited { ForSome self.old.office (λ office. is_unsettled office.machine self.old.flusher_ended ticket.ticket.number ≡ false) }
        ensures receipt { IfOk result (λ receipt. receipt ≡ ticket) }
        ensures durable { OnOk result (ForSome self.old.office (λ office. ticket.ticket.number ≤ office.machine.durable)) }
        ensures served { ForSome self.old.office (λ office. ticket.ticket.number ≤ office.machine.durable → IsOk result) }
        ensures refused { IfErr result (λ _. ForSome self.old.office (λ office. office.machine.durable < ticket.ticket.number)) }
        ensures lost { IfErr result (λ refused. refused.0 ≡ broken → ForSome self.old.office (λ office. is_lost office.machine ticket.ticket.number ≡ true)) }
        ensures ended { IfErr result (λ refused. refused.0 ≡ closed → ForSome self.old.office (λ office. (is_lost office.machine ticket.ticket.number ≡ false) × (self.old.flusher_ended ≡ true))) }
        ensures handed_back { IfErr result (λ refused. refused.1 ≡ ticket) }
        ensures causes { IfErr result (λ refused. IsUnserved N.origin ticket.ticket.number refused.0) }
        ensures taken { self.old.office ≡ None → result ≡ Err (closed, ticket) }
        ensures same { self.new.office ≡ self.old.office }
    {
        let Some(office) = &mut self.office else {
            return Err((Refusal::Closed, ticket));
        };
        match office.receipt(ticket) {
            Ok(receipt) => Ok(receipt),
            Err((_, ticket)) => Err((unserved(office, ticket.ticket().number), ticket)),
        }
    }

    /// What is shown, where that is the ticket's group or behind it. Who calls it has waited for that.
    ///
    /// Refused is a view that isn't shown: with 45 where the store is broken and the group is not durable, else with 61. Refused so is an office that was
    /// taken out (61).
    pub(crate) fn shown_since(&self, ticket: &Ticket) -> Result<Shown, Refusal>
        requires origin { ticket.now.origin ≡ N.origin }
        requires waited { ForSome self.now.office (λ office. is_unseen office.machine self.now.builder_ended ticket.now.ticket.number ≡ false) }
        ensures origin { IfOk result (λ shown. shown.origin ≡ N.origin) }
        ensures there { IfOk result (λ shown. IsAt N.origin.version shown.groups ticket.now.ticket) }
        ensures own { IfOk result (λ shown. ForSome self.now.office (λ office. shown.groups ≡ groups_to office.machine office.machine.shown)) }
        ensures state { IfOk result (λ shown. WereShown N.origin shown.groups) }
        ensures refused { IfErr result (λ _. ForSome self.now.office (λ office. office.machine.shown < ticket.now.ticket.number)) }
        ensures lost { IfErr result (λ refusal. refusal ≡ broken → ForSome self.now.office (λ office. is_lost office.machine ticket.now.ticket.number ≡ true)) }
        ensures ended { IfErr result (λ refusal. refusal ≡ closed → ForSome self.now.office (λ office. (is_lost office.machine ticket.now.ticket.number ≡ false) × (self.now.builder_ended ≡ true))) }
        ensures causes { IfErr result (IsUnserved N.origin ticket.now.ticket.number) }
    {
        let office = self.there()?;
        runs(office);
        match office.shown_since(ticket) {
            Some(shown) => Ok(shown),
            None => Err(unserved(office, ticket.ticket().number)),
        }
    }

    /// A reader of the readers' copy. Refused is one for which no free place is found (60), and an office that was taken out (61).
    pub(crate) fn reader(&mut self) -> Result<ShownReader, Refusal>
        ensures origin { IfOk result (λ reader. reader.origin ≡ N.origin) }
        ensures causes { IfErr result IsNoPlace }
        ensures full { IsSome self.old.office → IfErr result (λ refusal. refusal ≡ no_reader_place) }
        ensures taken { self.old.office ≡ None → result ≡ Err closed }
    {
        match &mut self.office {
            Some(office) => office.reader(),
            None => Err(Refusal::Closed),
        }
    }
}
