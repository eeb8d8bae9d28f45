ghost use Rattle.std.specs.Prelude.{◌≡◌, ◌⊎◌, ◌+◌, ◌<◌, ◌≤◌, ◌^◌, ◌++◌, ◌∷◌, [], true, length, take, max, MatchBool};
ghost use mathlib.Core.List.{IsPrefix};
ghost use Rattle.history.specs.Entries.{is_endless};
ghost use Rattle.history.specs.Written.{groups_counted, with_entry};
ghost use Rattle.machine.specs.Laws.{IsAt};

use crate::claims::{Claim, Settled};
use crate::entries::{Base, Entry, Link};
use crate::fronts::Front;
use crate::pens::{new_pen, write};
use crate::roots::Root;
use crate::rules::{Begins, Law};
use logbook::{Pen, Seen, Start, Word};
use machine::Ticket;
use roadnet::{Group, Network};
use std::marker::Model;
use std::snapshot::Snapshot;

/// A history that may grow, seen as a whole. It has the pen of its next entry, so nobody else writes one. Contracts see it as its groups, with the desk.
#[derive(Drop)]
pub struct History {
    head: Word<Link, u64, Law>,
    pen: Pen,
    /// How many groups there are.
    count: u64,
    /// The version with which the desk was opened.
    version: u64,
    root: Root,
    seen: Seen<Link, u64, Law>,
}

impl Model for History {
    ghost use Rattle.std.specs.Prelude.{◌≡◌, ◌≤◌, ◌^◌, length};
    ghost use Rattle.logbook.specs.Pages.{may_write};
    ghost use Rattle.history.specs.Origins.{Beginning};

    ghost Value = { Beginning };

    ghost use Rattle.history.specs.Chains.{chain, next_pen};
    ghost use Rattle.history.specs.Entries.{accepted, beginning, version_of, IsDeskOpen};
    ghost use Rattle.history.specs.Rules.{book_head_of};

    ghost view = { λ h. beginning (record { book = h.seen.book; pen = h.root }) (chain h.root h.seen.log) };

    ghost invariant = { λ h.
        let log = chain h.root h.seen.log in
        IsDeskOpen log × (h.count ≡ length (accepted log)) × (h.version ≡ version_of log) × (h.head ≡ book_head_of h.seen.book) × (h.pen.book ≡ h.seen.book)
        × (h.pen.nib.right ≡ may_write) × (h.pen.nib.key ≡ next_pen h.root h.seen.log) × (h.count ≤ 2 ^ 62) };
}

/// A closed history. Contracts see it as its groups, with the desk.
#[derive(Drop)]
pub struct Whole {
    root: Root,
    seen: Seen<Link, u64, Law>,
}

impl Model for Whole {
    ghost use Rattle.history.specs.Origins.{Beginning};

    ghost Value = { Beginning };

    ghost use Rattle.history.specs.Chains.{chain};
    ghost use Rattle.history.specs.Entries.{beginning, IsClosed};

    ghost view = { λ w. beginning (record { book = w.seen.book; pen = w.root }) (chain w.root w.seen.log) };

    ghost invariant = { λ w. IsClosed (chain w.root w.seen.log) };
}

/// More groups than any desk accepts.
const MOST_GROUPS: u64 = 1 << 62;

/// How many groups the entry adds.
fn counted(entry: &Entry) -> u64
    ensures value { result ≡ groups_counted entry.now }
    ensures few { result ≤ 1 }
{
    match entry {
        Entry::Accepted { .. } => 1,
        _ => 0,
    }
}

impl History {
    /// The history of a desk that is opened with this network and version: it has no group yet. It takes no memory.
    pub fn new(network: &Network, version: u64) -> History
        ensures base { (result.origin.base ≡ network.now) × (result.origin.version ≡ version) }
        ensures empty { (result.groups ≡ []) × (result.acknowledged ≡ 0) }
    {
        let (mut seen, mut pens) = Seen::open_row::<(), Begins>(&(), Start::alone(), 1);
        let head = Word::tracked(0, &mut pens.take());
        let mut first = new_pen(&head, &seen);
        let root = Root::of(&first);
        let pen = new_pen(&head, &seen);
        let base = Base {
            network: Snapshot::of(network),
            version,
        };
        let own = Snapshot::of(&first);
        let following = Snapshot::of(&pen);
        let link = Link {
            entry: Entry::Opened { base },
            pen: own,
            following,
        };
        write(&head, &mut seen, &mut first, &link);
        History {
            head,
            pen,
            count: 0,
            version,
            root,
            seen,
        }
    }

    /// How many groups it has.
    pub fn len(&self) -> u64
        ensures { result ≡ length self.now.groups }
    {
        self.count
    }

    /// Appends an entry.
    fn put(&mut self, entry: Entry)
        requires endless { is_endless (entry ∷ []) ≡ true }
        requires room { (groups_counted entry ≡ 0) ⊎ (length self.old.groups < 2 ^ 62) }
        ensures { self.new ≡ with_entry self.old entry }
    {
        let next = new_pen(&self.head, &self.seen);
        let more = counted(&entry);
        let own = Snapshot::of(&self.pen);
        let following = Snapshot::of(&next);
        let link = Link {
            entry,
            pen: own,
            following,
        };
        let mut seen = self.seen.again();
        write(&self.head, &mut seen, &mut self.pen, &link);
        self.pen = next;
        self.seen = seen;
        self.count += more;
    }

    /// Appends an accepted group. It returns false only if the history has 2^62 groups; then nothing is written.
    pub fn write(&mut self, group: &Group) -> bool
        ensures written { MatchBool result (self.new ≡ record self.old { groups = self.old.groups ++ group.now ∷ [] }) (self.new ≡ self.old) }
        ensures room { length self.old.groups < 2 ^ 62 → result ≡ true }
    {
        if self.count >= MOST_GROUPS {
            return false;
        }
        let group = Snapshot::of(group);
        self.put(Entry::Accepted { group });
        true
    }

    /// Records that the groups up to a number are acknowledged.
    pub fn acknowledge(&mut self, number: u64)
        ensures { self.new ≡ record self.old { acknowledged = max self.old.acknowledged number } }
    {
        self.put(Entry::Acknowledged { number });
    }

    /// The first groups, as many as asked for.
    pub fn front(&self, count: u64) -> Front
        requires { count ≤ length self.now.groups }
        ensures { result ≡ record self.now { groups = take count self.now.groups } }
    {
        Front {
            count,
            root: self.root.again(),
            seen: self.seen.again(),
        }
    }

    /// The token of a ticket whose group has its number in the history.
    pub fn claim(&self, ticket: Ticket) -> Claim
        requires { IsAt self.now.origin.version self.now.groups ticket }
        ensures { result ≡ record { origin = self.now.origin; ticket = ticket } }
    {
        let front = self.front(ticket.number - self.version);
        Claim { ticket, front }
    }

    /// The token of a receipt for a claim. Groups are acknowledged up to at least its number.
    pub fn settled(&self, claim: Claim) -> Settled
        requires origin { claim.origin ≡ self.now.origin }
        requires acknowledged { claim.ticket.number ≤ self.now.acknowledged }
        ensures { result ≡ claim }
    {
        Settled {
            front: self.front(self.count).joined(&claim.front),
            claim,
        }
    }

    /// Whether the claim's group has its number in the history. Otherwise the history is too short for the number.
    pub fn holds(&self, claim: &Claim) -> bool
        requires { claim.now.origin ≡ self.now.origin }
        ensures { MatchBool result (IsAt self.now.origin.version self.now.groups claim.now.ticket) (self.now.origin.version + length self.now.groups < claim.now.ticket.number) }
    {
        self.begins(&claim.front)
    }

    /// Whether the history has as many groups as the front. Then the front begins it.
    pub fn begins(&self, front: &Front) -> bool
        requires { front.now.origin ≡ self.now.origin }
        ensures { MatchBool result (IsPrefix front.now.groups self.now.groups) (length self.now.groups < length front.now.groups) }
    {
        let mut both = self.seen.again();
        both.learn(&front.seen);
        front.count <= self.count
    }

    /// Closes the history: no group is accepted any more.
    pub fn close(self) -> Whole
        ensures { result ≡ self }
    {
        let History {
            head,
            mut pen,
            count: _,
            version: _,
            root,
            mut seen,
        } = self;
        let own = Snapshot::of(&pen);
        let following = Snapshot::of(&pen);
        let link = Link {
            entry: Entry::Closed,
            pen: own,
            following,
        };
        write(&head, &mut seen, &mut pen, &link);
        Whole { root, seen }
    }
}

impl Whole {
    /// Each front of the history begins it.
    pub fn holds(&self, front: &Front)
        requires { front.now.origin ≡ self.now.origin }
        ensures groups { IsPrefix front.now.groups self.now.groups }
        ensures acknowledged { front.now.acknowledged ≤ self.now.acknowledged }
    {
        let mut both = self.seen.again();
        both.learn(&front.seen);
    }

    /// The group of a receipt's token: it has its number in the history, and was acknowledged.
    pub fn confirm<'a>(&self, settled: &'a Settled) -> &'a Group
        requires { settled.now.origin ≡ self.now.origin }
        ensures group { result.now ≡ settled.now.ticket.group }
        ensures there { IsAt self.now.origin.version self.now.groups settled.now.ticket }
        ensures acknowledged { settled.now.ticket.number ≤ self.now.acknowledged }
    {
        self.holds(&settled.front);
        &settled.claim.ticket.group
    }
}
