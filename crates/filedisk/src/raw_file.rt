//! A file as the system gives it.
ghost use Rattle.std.specs.Prelude.{◌≡◌, ◌+◌, ◌-◌, ◌≤◌, ◌↔◌, ◌++◌, ◌∷◌, List, ℕ, take, drop, length, slice_range, true, false, IfOk, OnOk, OnErr, IsErr};
ghost use Rattle.disk.specs.Contents.{overwritten, AreAmong, Only};
ghost use Rattle.filedisk.specs.Files.{Unchanged, Tears, lengthened};
ghost use Rattle.filedisk.specs.Noted.{NotedCall, Size, Read, Write, Lengthen, told_number, done, gave, Makes, MakesSync, has_failed_sync};

use std::io;

/// A file whose calls may do less than they were asked for, and say how much. A call that fails may have done a part.
///
/// What is said of contents and stops holds if the file is honest. Only then does a caller owe the conditions.
pub trait RawFile {
    /// The calls that were made of the file, the newest first, with their answers.
    ghost calls: { Self → List NotedCall };

    /// The bytes that reads give.
    ghost content: { Self → List ℕ };

    /// The contents that a stop may leave now.
    ghost left: { Self → List ℕ → Type 0 };

    /// The present moment, as a number that never decreases.
    ghost moment: { Self → ℕ };

    /// The contents that a stop at that moment or a later one might have left.
    ghost left_since: { Self → ℕ → List ℕ → Type 0 };

    /// The file does what is said of contents and stops.
    ghost honest: { Self → Type 0 };

    /// The content's length.
    fn size(&mut self) -> io::Result<u64>
        ensures made { calls self.new ≡ (Size, told_number result) ∷ calls self.old }
        ensures length { honest self.old → IfOk result (λ n. n ≡ length (content self.old)) }
        ensures same { honest self.old → Unchanged content left moment left_since self.old self.new }
        ensures honest { honest self.new ↔ honest self.old };

    /// Puts bytes from `at` on into the front of `into`, and returns how many.
    fn read_some(&mut self, at: u64, into: &mut [u8]) -> io::Result<usize>
        requires { honest self.old → at + length into.old ≤ length (content self.old) }
        ensures made { Makes (Read at (length into.old)) (gave into.new result) (calls self.old) (calls self.new) }
        ensures bound { IfOk result (λ n. n ≤ length into.old) }
        ensures bytes { honest self.old → IfOk result (λ n. into.new ≡ slice_range (content self.old) at (at + n) ++ drop n into.old) }
        ensures same { honest self.old → Unchanged content left moment left_since self.old self.new }
        ensures honest { honest self.new ↔ honest self.old };

    /// Gives the file this length. It grows by zeros.
    fn lengthen(&mut self, size: u64) -> io::Result<()>
        requires { honest self.old → length (content self.old) ≤ size }
        ensures made { calls self.new ≡ (Lengthen size, done result) ∷ calls self.old }
        ensures longer { honest self.old → OnOk result (content self.new ≡ lengthened (content self.old) size) }
        ensures failed { honest self.old → OnErr result (content self.new ≡ content self.old) }
        ensures tears { honest self.old → Tears (length (content self.old)) (size - length (content self.old)) content left moment left_since self.old self.new }
        ensures keeps { honest self.old → AreAmong (left self.old) (left self.new) }
        ensures honest { honest self.new ↔ honest self.old };

    /// Writes the first of the bytes at `at`, within the length, and returns how many. Until the next sync that succeeds, a stop may leave any bytes in the
    /// range, and what it might have left before.
    fn write_some(&mut self, at: u64, bytes: &[u8]) -> io::Result<usize>
        requires { honest self.old → at + length bytes.now ≤ length (content self.old) }
        ensures made { Makes (Write at bytes.now) (told_number result) (calls self.old) (calls self.new) }
        ensures bound { IfOk result (λ n. n ≤ length bytes.now) }
        ensures written { honest self.old → IfOk result (λ n. content self.new ≡ overwritten (content self.old) at (take n bytes.now)) }
        ensures tears { honest self.old → Tears at (length bytes.now) content left moment left_since self.old self.new }
        ensures keeps { honest self.old → AreAmong (left self.old) (left self.new) }
        ensures honest { honest self.new ↔ honest self.old };

    /// After this, a stop leaves the content. Once a sync has failed, each later one fails and is not made: it is then not known what the file keeps of the
    /// earlier writes.
    fn sync(&mut self) -> io::Result<()>
        ensures made { has_failed_sync (calls self.old) ≡ false → MakesSync (done result) (calls self.old) (calls self.new) }
        ensures refused { has_failed_sync (calls self.old) ≡ true → IsErr result × calls self.new ≡ calls self.old }
        ensures durable { honest self.old → OnOk result (Only (content self.old) (left self.new)) }
        ensures same { honest self.old → Unchanged content left moment left_since self.old self.new }
        ensures honest { honest self.new ↔ honest self.old };

    /// A stop may leave the content as it is read.
    ghost leaves_content: { (file : Self) → honest file → left file (content file) };

    /// The present moment is among those since an earlier one.
    ghost counts_now: { (file : Self) (t : ℕ) (c : List ℕ) → honest file → t ≤ moment file → left file c → left_since file t c };

    /// Since the present moment there is no other.
    ghost only_now: { (file : Self) (c : List ℕ) → honest file → left_since file (moment file) c → left file c };
}
