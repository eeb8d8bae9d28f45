//! A session: what it has of its desk, the group that its lines are in, and what it supposes.
ghost use Rattle.std.specs.Prelude.{◌≡◌, None};
ghost use Rattle.std.specs.Option.{ForSome};
ghost use Rattle.session_lines.specs.Drafts.{Drafted, IsDraft, no_draft, with_line};
ghost use Rattle.sessions.specs.Told.{claim_of};

use desk::{Naming, Place, Receipt, Ticket};
use history::Front;
use session_lines::{Draft, Line};
use std::alloc::Global;
use suppositions::Supposed;

/// An accepted group, settled or not.
#[derive(Drop)]
pub(crate) enum Accepted {
    Settled(Receipt),
    Unsettled(Ticket),
}

impl Accepted {
    /// The group's ticket.
    pub(crate) fn ticket(&self) -> &Ticket
        ensures { result.now ≡ claim_of self.now }
    {
        match self {
            Accepted::Settled(receipt) => receipt.ticket(),
            Accepted::Unsettled(ticket) => ticket,
        }
    }
}

/// What is to become of a group.
#[derive(Clone, Copy)]
pub(crate) enum Purpose {
    ToCarryOut,
    ToSuppose,
}

/// A group that has begun and not ended: what is to become of it, and what its lines said so far.
#[derive(Drop)]
pub(crate) struct SessionGroup {
    pub(crate) purpose: Purpose,
    pub(crate) draft: Draft,
}

impl SessionGroup {
    /// No line so far.
    pub(crate) fn new(alloc: Global, purpose: Purpose) -> SessionGroup
        ensures purpose { result.purpose ≡ purpose }
        ensures draft { IsDraft no_draft result.draft }
    {
        SessionGroup {
            purpose,
            draft: Draft::new(alloc),
        }
    }

    /// With one line more, which doesn't end it.
    pub(crate) fn with(self, line: Line) -> SessionGroup
        ensures purpose { result.purpose ≡ self.purpose }
        ensures draft { (draft : Drafted) → IsDraft draft self.draft → IsDraft (with_line draft line) result.draft }
    {
        let SessionGroup { purpose, draft } = self;
        SessionGroup {
            purpose,
            draft: draft.with(line),
        }
    }
}

/// What a session has of its desk: a place among its readers, once one was found, by which it holds no view; the last of its groups that was accepted; and, once a group was
/// told to be durable, a beginning of the desk's history in which each of these is acknowledged. And what it has alone: the group that its lines are in, if they
/// are in one, and what it supposes, if it supposes something, of which nothing reaches the desk.
#[derive(Drop)]
pub struct Session<N: Naming> {
    pub(crate) place: Option<Place<N>>,
    pub(crate) last: Option<Accepted>,
    pub(crate) receipts: Option<Front>,
    pub(crate) group: Option<SessionGroup>,
    pub(crate) supposed: Option<Supposed>,
    ghost of_desk: { ForSome last (λ accepted. (claim_of accepted).origin ≡ N.origin) },
    ghost receipts_of_desk: { ForSome receipts (λ front. front.origin ≡ N.origin) },
}

impl<N: Naming> Session<N> {
    /// No group was accepted yet, nothing was seen, and nothing is supposed.
    pub(crate) fn new() -> Session<N>
        ensures place { result.place ≡ None }
        ensures last { result.last ≡ None }
        ensures receipts { result.receipts ≡ None }
        ensures group { result.group ≡ None }
        ensures supposed { result.supposed ≡ None }
    {
        Session {
            place: None,
            last: None,
            receipts: None,
            group: None,
            supposed: None,
        }
    }

    /// The session has ended: what it supposed is no more.
    pub(crate) fn ended(mut self) -> Session<N>
        ensures place { result.place ≡ self.place }
        ensures receipts { result.receipts ≡ self.receipts }
    {
        self.supposed = None;
        self
    }

    /// The front of the history that has its receipts, and the one that it has seen or learned of. Its reader place is given back.
    pub(crate) fn into_fronts(self) -> (Option<Front>, Option<Front>)
        ensures receipts { result.0 ≡ self.receipts }
        ensures receipts_of_desk { ForSome result.0 (λ front. front.origin ≡ N.origin) }
        ensures seen { result.1 ≡ self.place }
        ensures seen_of_desk { ForSome result.1 (λ front. front.origin ≡ N.origin) }
    {
        let Session {
            place,
            last: _,
            receipts,
            group: _,
            supposed: _,
        } = self;
        let seen = match &place {
            Some(place) => Some(place.known().again()),
            None => None,
        };
        (receipts, seen)
    }
}
