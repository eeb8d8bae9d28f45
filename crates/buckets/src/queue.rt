ghost use Rattle.std.specs.Prelude.{◌≡◌, ℕ, ◌≤◌, ◌<◌, ◌/◌, ◌+◌, ◌↔◌, [], IsTrue, OnOk, OnErr, IfOk, MatchOption};
ghost use Rattle.std.specs.FinMap as map;
ghost use Rattle.buckets.specs.Queue.{Entries, TakesLeast};

use std::alloc::AllocError;

/// A map from nodes to values, kept in buckets: bucket `b` has the nodes whose value divided by `delta` is `b`, rounded down.
///
/// An implementation may have a window. Then only the values of some buckets in a row fit.
pub trait BucketQueue {
    /// The value of each node that is queued.
    ghost entries: { Self → Entries };

    /// How many values a bucket spans.
    ghost width: { Self → ℕ };

    /// How many buckets in a row fit.
    ghost span: { Self → ℕ };

    /// The values that fit now.
    ghost accepts: { Self → ℕ → Type 0 };

    /// How many values a bucket spans, at least 1.
    fn delta(&self) -> u32
        ensures value { result ≡ width self.now }
        ensures positive { 1 ≤ width self.now };

    /// How many buckets in a row fit, counted from the bucket taken last, or from bucket 0 before the first was taken.
    fn window(&self) -> u64
        ensures value { result ≡ span self.now };

    /// Whether no node is queued.
    fn is_empty(&self) -> bool
        ensures empty { IsTrue result ↔ (entries self.now ≡ map.empty) };

    /// Whether a node can be queued with this value now.
    fn fits(&self, value: u64) -> bool
        ensures fits { IsTrue result ↔ accepts self.now value };

    /// Queues a node with this value, and replaces an earlier value. The only error is lack of memory; then the nodes and values are as they were. What
    /// fits stays the same in both cases.
    fn put(&mut self, node: u32, value: u64) -> Result<(), AllocError>
        requires fits { accepts self.old value }
        ensures ok { OnOk result (entries self.new ≡ map.insert (entries self.old) node value) }
        ensures err { OnErr result (entries self.new ≡ entries self.old) }
        ensures accepts { (v : ℕ) → accepts self.old v ↔ accepts self.new v }
        ensures width { width self.new ≡ width self.old }
        ensures span { span self.new ≡ span self.old };

    /// Takes out all nodes of the least bucket that is not empty, and returns its number and the nodes in ascending order; nothing if no node is queued.
    /// From then on the values of that bucket and those after it fit, as many buckets as the window has. The only error is lack of memory; then the nodes,
    /// the values and what fits are as they were.
    fn take_least(&mut self) -> Result<Option<(u64, Vec<u32>)>, AllocError>
        ensures taken { IfOk result (λ taken. MatchOption taken (entries self.old ≡ map.empty) (λ t. TakesLeast (width self.old) (entries self.old) t.0 t.1.items (entries self.new))) }
        ensures window { IfOk result (λ taken. MatchOption taken ((v : ℕ) → accepts self.old v ↔ accepts self.new v) (λ t. (v : ℕ) → t.0 ≤ v / width self.old → v / width self.old < t.0 + span self.old → accepts self.new v)) }
        ensures kept { IfOk result (λ taken. MatchOption taken (entries self.new ≡ entries self.old) (λ _. Unit {0})) }
        ensures err { OnErr result (entries self.new ≡ entries self.old) }
        ensures err_accepts { OnErr result ((v : ℕ) → accepts self.old v ↔ accepts self.new v) }
        ensures width { width self.new ≡ width self.old }
        ensures span { span self.new ≡ span self.old };

    /// Takes out all nodes of the least bucket that is not empty, as `take_least` does, into a list of the caller's, and returns the bucket's number. The
    /// earlier content of the list is lost; the list is empty if no node is queued. So a caller that takes one bucket after another keeps one list. If
    /// memory runs out, the list may have any content.
    fn take_least_into(&mut self, nodes: &mut Vec<u32>) -> Result<Option<u64>, AllocError>
        ensures taken { IfOk result (λ taken. MatchOption taken (entries self.old ≡ map.empty) (λ bucket. TakesLeast (width self.old) (entries self.old) bucket nodes.new.items (entries self.new))) }
        ensures none { IfOk result (λ taken. MatchOption taken (nodes.new.items ≡ []) (λ _. Unit {0})) }
        ensures window { IfOk result (λ taken. MatchOption taken ((v : ℕ) → accepts self.old v ↔ accepts self.new v) (λ bucket. (v : ℕ) → bucket ≤ v / width self.old → v / width self.old < bucket + span self.old → accepts self.new v)) }
        ensures kept { IfOk result (λ taken. MatchOption taken (entries self.new ≡ entries self.old) (λ _. Unit {0})) }
        ensures err { OnErr result (entries self.new ≡ entries self.old) }
        ensures err_accepts { OnErr result ((v : ℕ) → accepts self.old v ↔ accepts self.new v) }
        ensures width { width self.new ≡ width self.old }
        ensures span { span self.new ≡ span self.old };
}
