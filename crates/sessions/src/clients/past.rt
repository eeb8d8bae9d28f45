//! What finished sessions leave.
ghost use Rattle.std.specs.Prelude.{◌≡◌, ◌<◌, ◌≤◌, [], true, false, length, IfSome};
ghost use Rattle.std.specs.Option.{ForSome};
ghost use mathlib.Core.List.{IsPrefix};
ghost use Rattle.sessions.specs.Past.{AreSessionsKept, AreLeft, HoldsMore, LeavesOneMore};
ghost use Rattle.sessions.specs.Told.{known_to};
ghost use Rattle.sessions.specs.Turns.{SessionStanding, IsSessionAt, IsSessionKept};

use crate::session::sessions::Session;
use desk::{Closed, Naming};
use disk::Disk;
use history::{Front, Whole};
use std::marker::PhantomData;

/// What finished sessions of one desk leave, in as much memory as one of them takes: a front of the desk's history in which each group is acknowledged that
/// one of them reported to be durable, and one with all groups that one of them has seen. No reader place of the desk is kept.
#[derive(Drop)]
pub struct Past<N: Naming> {
    receipts: Option<Front>,
    seen: Option<Front>,
    of: PhantomData<N>,
    ghost receipts_of_desk: { ForSome receipts (λ front. front.origin ≡ N.origin) },
    ghost seen_of_desk: { ForSome seen (λ front. front.origin ≡ N.origin) },
}

/// A closed history has what a front of it has, if there is one.
fn compare(receipts: &Option<Front>, whole: &Whole)
    requires { ForSome receipts.now (λ front. front.origin ≡ whole.now.origin) }
    ensures { IfSome receipts.now (λ front. IsPrefix front.groups whole.now.groups × (front.acknowledged ≤ whole.now.acknowledged)) }
{
    match receipts {
        Some(front) => whole.holds(front),
        None => (),
    }
}

impl<N: Naming> Session<N> {
    /// Compares what the session has with its desk, which is closed. Whatever a stop leaves of the desk: each group that the session reported to be durable
    /// has its number in it, and it begins with everything that the session has seen or learned of. It takes no memory.
    ///
    /// It returns false only if the desk showed fewer groups than the session has seen, which never happens.
    pub fn is_kept<D: Disk>(&self, closed: &Closed<D>) -> bool
        requires { closed.now.whole.origin ≡ N.origin }
        ensures kept { result ≡ true → (last : SessionStanding) → IsSessionAt N.origin self.now.place self.now.receipts last → IsSessionKept closed.now.whole closed.now.shown last }
        ensures fewer { result ≡ false → length closed.now.shown.groups < length (known_to self.now.place) }
    {
        compare(&self.receipts, &closed.whole);
        match &self.place {
            Some(place) => closed.has_shown(place.known()),
            None => true,
        }
    }
}

/// A front of the history that has what two others have, if there is one of them.
fn joined<N: Naming>(had: &Option<Front>, more: Option<Front>) -> Option<Front>
    requires had { ForSome had.now (λ front. front.origin ≡ N.origin) }
    requires more { ForSome more (λ front. front.origin ≡ N.origin) }
    ensures origin { ForSome result (λ front. front.origin ≡ N.origin) }
    ensures had { HoldsMore N.origin had.now result }
    ensures more { HoldsMore N.origin more result }
{
    match (had, more) {
        (Some(had), Some(more)) => Some(had.joined(&more)),
        (Some(had), None) => Some(had.again()),
        (None, more) => more,
    }
}

impl<N: Naming> Past<N> {
    /// No session has ended yet.
    pub fn new() -> Past<N>
        ensures { AreLeft N.origin result.receipts result.seen [] }
    {
        Past {
            receipts: None,
            seen: None,
            of: PhantomData,
        }
    }

    /// A session has ended. Its reader place is given back.
    pub fn add(&mut self, session: Session<N>)
        ensures { LeavesOneMore N.origin self.old.receipts self.old.seen self.new.receipts self.new.seen session.place session.receipts }
    {
        let (receipts, seen) = session.into_fronts();
        self.receipts = joined::<N>(&self.receipts, receipts);
        self.seen = joined::<N>(&self.seen, seen);
    }

    /// Compares what the sessions left with their desk, which is closed, as `Session::is_kept` does for one.
    pub fn is_kept<D: Disk>(&self, closed: &Closed<D>) -> bool
        requires { closed.now.whole.origin ≡ N.origin }
        ensures { result ≡ true → AreSessionsKept N.origin self.now.receipts self.now.seen closed.now.whole closed.now.shown }
    {
        compare(&self.receipts, &closed.whole);
        match &self.seen {
            Some(seen) => closed.has_shown(seen),
            None => true,
        }
    }
}
