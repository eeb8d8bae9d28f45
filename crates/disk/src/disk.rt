// A disk: its calls, and what a stop may leave.
ghost use Rattle.std.specs.Prelude.{◌≡◌, ◌+◌, ◌≤◌, ◌↔◌, List, ℕ, Bool, length, slice_range, is_ok, IfOk, OnOk, OnErr};
ghost use Rattle.disk.specs.Calls.{DiskCall, Len, Read, Write, Sync};
ghost use Rattle.disk.specs.Contents.{overwritten, Torn, PartlyWritten, Only, AreAmong, Follows, failures_after};
ghost use Rattle.disk.specs.Moments.{Elapses};

use thiserror::Error;

/// The disk failed in this call.
#[derive(Clone, Copy, Debug, PartialEq, Eq, Error)]
#[error("the disk failed")]
pub struct DiskError;

/// A disk has a content, a list of bytes. Each call can fail.
///
/// What is said of contents and stops holds if the disk is honest. Only then does a caller owe the conditions.
pub trait Disk {
    /// The bytes that reads give.
    ghost content: { Self → List ℕ };

    /// The contents that a stop may leave now.
    ghost left: { Self → List ℕ → Type 0 };

    /// The present moment, as a number that never decreases.
    ghost moment: { Self → ℕ };

    /// The contents that a stop at that moment or a later one might have left, during a call or between two.
    ghost left_since: { Self → ℕ → List ℕ → Type 0 };

    /// How many calls have failed, up to 2^64 - 1, where the count stays.
    ghost failures: { Self → ℕ };

    /// The disk does what is said of contents and stops.
    ghost honest: { Self → Type 0 };

    /// What an implementation says of its own calls beyond the disk model: whether the call, answered `Ok` or not, may lead from the one disk to the other.
    /// An implementation that says no more leaves it out.
    ghost takes: { Self → DiskCall → Bool → Self → Type 0 } = { λ _ _ _ _. Unit {0} };

    /// The content's length.
    fn len(&mut self) -> Result<u64, DiskError>
        ensures length { honest self.old → IfOk result (λ n. n ≡ length (content self.old)) }
        ensures content { honest self.old → content self.new ≡ content self.old }
        ensures stop { honest self.old → AreAmong (left self.new) (left self.old) }
        ensures time { honest self.old → Elapses (moment self.old) (moment self.new) (left_since self.old) (left_since self.new) (left self.new) }
        ensures counted { failures self.new ≡ failures_after result (failures self.old) }
        ensures honest { honest self.new ↔ honest self.old }
        ensures takes { takes self.old Len (is_ok result) self.new };

    /// Fills `into` with the bytes from `at` on.
    fn read(&mut self, at: u64, into: &mut [u8]) -> Result<(), DiskError>
        requires { honest self.old → at + length into.old ≤ length (content self.old) }
        ensures bytes { honest self.old → OnOk result (into.new ≡ slice_range (content self.old) at (at + length into.old)) }
        ensures content { honest self.old → content self.new ≡ content self.old }
        ensures stop { honest self.old → AreAmong (left self.new) (left self.old) }
        ensures time { honest self.old → Elapses (moment self.old) (moment self.new) (left_since self.old) (left_since self.new) (left self.new) }
        ensures counted { failures self.new ≡ failures_after result (failures self.old) }
        ensures honest { honest self.new ↔ honest self.old }
        ensures takes { takes self.old (Read at (length into.old)) (is_ok result) self.new };

    /// Writes over what is there, and beyond the end. From its beginning until the next sync that succeeds, a stop may leave any bytes in the range.
    fn write_at(&mut self, at: u64, bytes: &[u8]) -> Result<(), DiskError>
        requires { honest self.old → at ≤ length (content self.old) }
        ensures written { honest self.old → OnOk result (content self.new ≡ overwritten (content self.old) at bytes.now) }
        ensures failed { honest self.old → OnErr result (PartlyWritten at (length bytes.now) (content self.old) (content self.new)) }
        ensures stop { honest self.old → Follows (Torn at (length bytes.now)) (left self.old) (left self.new) }
        ensures time { honest self.old → Elapses (moment self.old) (moment self.new) (left_since self.old) (left_since self.new) (left self.new) }
        ensures counted { failures self.new ≡ failures_after result (failures self.old) }
        ensures honest { honest self.new ↔ honest self.old }
        ensures takes { takes self.old (Write at bytes.now) (is_ok result) self.new };

    /// After this, a stop leaves the content.
    fn sync(&mut self) -> Result<(), DiskError>
        ensures durable { honest self.old → OnOk result (Only (content self.old) (left self.new)) }
        ensures content { honest self.old → content self.new ≡ content self.old }
        ensures stop { honest self.old → AreAmong (left self.new) (left self.old) }
        ensures time { honest self.old → Elapses (moment self.old) (moment self.new) (left_since self.old) (left_since self.new) (left self.new) }
        ensures counted { failures self.new ≡ failures_after result (failures self.old) }
        ensures honest { honest self.new ↔ honest self.old }
        ensures takes { takes self.old Sync (is_ok result) self.new };

    /// A stop may leave the content as it is read.
    ghost leaves_content: { (disk : Self) → honest disk → left disk (content disk) };

    /// The present moment is among those since an earlier one.
    ghost counts_now: { (disk : Self) (t : ℕ) (c : List ℕ) → honest disk → t ≤ moment disk → left disk c → left_since disk t c };

    /// Since the present moment there is no other.
    ghost only_now: { (disk : Self) (c : List ℕ) → honest disk → left_since disk (moment disk) c → left disk c };
}
