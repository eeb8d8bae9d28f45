// A disk that a test can stop.
ghost use Rattle.std.specs.Prelude.{◌≡◌, ◌↔◌, ◌<◌, ◌≤◌, List, ℕ, Bool, false, Option, None, Some, IsTrue, length};
ghost use Rattle.disk.specs.Calls.{DiskCall};
ghost use Rattle.disk.specs.Contents.{Only, AgreesWithSynced};
ghost use Rattle.disk.specs.Stop.{TakesPicks, nearer_by, synced_by, armed_at, IsUnsyncedBy};

use crate::Disk;

/// What becomes of a byte that was written since the last sync.
#[derive(Clone, Copy, Debug, PartialEq, Eq)]
pub enum Pick {
    /// The synced byte, or 0 if there was none.
    Old,
    /// The byte that was written.
    New,
    /// Some other byte.
    Byte(u8),
}

/// A disk that a test can stop, at a call that it names beforehand.
pub trait Stoppable: Disk {
    /// The content at the last sync that succeeded.
    ghost synced: { Self → List ℕ };

    /// Whether a place was written since the last sync.
    ghost is_unsynced: { Self → ℕ → Bool };

    /// Which write or sync from now on is the armed one, where the next one is 1. It is 0 once that has come, and `None` if none is armed.
    ghost armed: { Self → Option ℕ };

    /// The k-th write or sync from now on is cut: a write is made but not answered, a sync is not made. It and each later call fail until the stop. If an
    /// armed call has come already, that does not change. Nothing else is changed.
    fn arm(&mut self, k: u64)
        requires { 1 ≤ k }
        ensures armed { armed self.new ≡ armed_at k (armed self.old) }
        ensures content { Self.content self.new ≡ Self.content self.old }
        ensures synced { synced self.new ≡ synced self.old }
        ensures unsynced { (i : ℕ) → is_unsynced self.new i ≡ is_unsynced self.old i }
        ensures left { (c : List ℕ) → Self.left self.new c ↔ Self.left self.old c }
        ensures moment { Self.moment self.new ≡ Self.moment self.old }
        ensures left_since { (t : ℕ) (c : List ℕ) → Self.left_since self.new t c ↔ Self.left_since self.old t c }
        ensures failures { Self.failures self.new ≡ Self.failures self.old }
        ensures honest { Self.honest self.new ↔ Self.honest self.old };

    /// Stops, and starts again with what the stop left, all of it synced and no call armed. It returns whether an armed call came. The i-th of the places
    /// that were written since the last sync, in ascending order and i from 0, takes the pick `i mod picks.len()`.
    fn stop(&mut self, picks: &[Pick]) -> bool
        requires { 0 < length picks.now }
        ensures came { IsTrue result ↔ (armed self.old ≡ Some 0) }
        ensures armed { armed self.new ≡ None }
        ensures left { Self.honest self.old → Self.left self.old (Self.content self.new) }
        ensures synced { Self.honest self.old → Only (Self.content self.new) (Self.left self.new) }
        ensures picks { Self.honest self.old → TakesPicks picks.now (synced self.old) (is_unsynced self.old) (Self.content self.old) (Self.content self.new) }
        ensures failures { Self.failures self.new ≡ Self.failures self.old }
        ensures honest { Self.honest self.new ↔ Self.honest self.old };

    /// A stop may leave exactly what agrees with the synced content outside the places written since.
    ghost left_is: { (disk : Self) (c : List ℕ) → Self.honest disk → Self.left disk c ↔ AgreesWithSynced (synced disk) (is_unsynced disk) (length (Self.content disk)) c };

    /// Each write or sync brings the armed one nearer. No other call does.
    ghost comes_nearer: { (old : Self) (call : DiskCall) (ok : Bool) (new : Self) → Self.takes old call ok new → armed new ≡ nearer_by call (armed old) };

    /// A sync that succeeds makes the content the synced one. No other call syncs.
    ghost only_sync_syncs: { (old : Self) (call : DiskCall) (ok : Bool) (new : Self) → Self.takes old call ok new → synced new ≡ synced_by call ok (Self.content old) (synced old) };

    /// A write that succeeds makes exactly its range unsynced; one that fails, its range or nothing. A sync that succeeds leaves nothing unsynced. No other
    /// call changes what is unsynced.
    ghost writes_unsync: { (old : Self) (call : DiskCall) (ok : Bool) (new : Self) → Self.takes old call ok new → IsUnsyncedBy call ok (is_unsynced old) (is_unsynced new) };

    /// The armed call fails, and so does each call after it.
    ghost cut_fails: { (old : Self) (call : DiskCall) (ok : Bool) (new : Self) → Self.takes old call ok new → armed new ≡ Some 0 → ok ≡ false };
}
