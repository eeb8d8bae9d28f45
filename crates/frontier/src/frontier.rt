ghost use Rattle.std.specs.Prelude.{◌≡◌, ℕ, ◌≤◌, ◌<◌, ◌/◌, ◌+◌, ◌^◌, List, [], All, Option, Some, IfOk, OnErr, IsSome, MatchBool, MatchOption, length, slice_set};
ghost use Rattle.std.specs.FinMap as map;
ghost use Rattle.relax.specs.Values.{value_at, value_or};
ghost use Rattle.relax.specs.Requests.{requests_of};
ghost use Rattle.buckets.specs.Queue.{Entries};
ghost use Rattle.frontier.specs.Frontier.{TakesAny};

use relax::Team;
use roadnet::OutOfMemory;
use snapshot::{Part, Snapshot};
use std::alloc::{AllocError, Global};

/// What a search by values keeps: the tentative value of each node that has one, and the queued nodes, in buckets by value. Bucket `b` has the nodes whose
/// value divided by `delta` is `b`, rounded down. A frontier may have a window, as a `BucketQueue` has.
///
/// After an `Err` it is not used again.
pub trait Frontier {
    /// The tentative value of each node, from number 0 on.
    ghost tentative: { Self → List (Option ℕ) };

    /// The value of each node that is queued.
    ghost entries: { Self → Entries };

    /// How many values a bucket spans.
    ghost width: { Self → ℕ };

    /// How many buckets in a row fit.
    ghost span: { Self → ℕ };

    /// The values that fit now.
    ghost accepts: { Self → ℕ → Type 0 };

    /// It has noted that it has no words for this value, if it has none.
    ghost notes: { Self → ℕ → Type 0 };

    /// How many values a bucket spans, at least 1.
    fn delta(&self) -> u32
        ensures value { result ≡ width self.now }
        ensures positive { 1 ≤ width self.now };

    /// The value of a node, if it has one.
    fn value(&self, node: u32) -> Option<u64>
        requires node { (1 ≤ node) × (node < length (tentative self.now)) }
        ensures value { result ≡ value_at (tentative self.now) node };

    /// The requests of these nodes, as the team computes them where it can read the values. The only error is lack of memory, for 16 bytes a leg.
    fn requests<T: Team>(
        &self,
        alloc: Global,
        snapshot: &Snapshot,
        team: &T,
        nodes: &[u32],
        part: Part,
    ) -> Result<Vec<(u32, u64)>, OutOfMemory>
        requires nodes { All (λ u. (1 ≤ u) × (u ≤ snapshot.now.nodes)) nodes.now }
        requires size { length (tentative self.now) ≡ snapshot.now.nodes + 1 }
        requires values { All (λ u. IsSome (value_at (tentative self.now) u) × (value_or 0 (tentative self.now) u < 2 ^ 56)) nodes.now }
        ensures requests { IfOk result (λ list. list.items ≡ requests_of snapshot.now nodes.now (tentative self.now) part) };

    /// Lowers a node's value to the given one, if that is below `top` and the present value, and queues the node. Returns whether it did. Its errors are lack of
    /// memory, and a value that the frontier has no words for, if it has such values. Of the latter it takes note.
    fn lower(&mut self, top: u64, node: u32, value: u64) -> Result<bool, AllocError>
        requires node { (1 ≤ node) × (node < length (tentative self.old)) }
        requires fits { accepts self.old value }
        requires small { top ≤ 2 ^ 56 }
        ensures lowered { IfOk result (λ lowers. MatchBool lowers (value < value_or top (tentative self.old) node) (value_or top (tentative self.old) node ≤ value)) }
        ensures tentative { IfOk result (λ lowers. MatchBool lowers (tentative self.new ≡ slice_set (tentative self.old) node (Some value)) (tentative self.new ≡ tentative self.old)) }
        ensures queued { IfOk result (λ lowers. MatchBool lowers (entries self.new ≡ map.insert (entries self.old) node value) (entries self.new ≡ entries self.old)) }
        ensures refused { OnErr result (notes self.new value) }
        ensures accepts { (v : ℕ) → accepts self.old v → accepts self.new v }
        ensures width { width self.new ≡ width self.old }
        ensures span { span self.new ≡ span self.old };

    /// Takes out all nodes of the least bucket that is not empty, each once and in any order, into a list of the caller's, and returns the bucket's number;
    /// nothing if no node is queued. The earlier content of the list is lost. From then on the values of that bucket and those after it fit, as many
    /// buckets as the window has.
    fn take_least_into(&mut self, nodes: &mut Vec<u32>) -> Result<Option<u64>, AllocError>
        ensures taken { IfOk result (λ taken. MatchOption taken (entries self.old ≡ map.empty) (λ bucket. TakesAny (width self.old) (entries self.old) bucket nodes.new.items (entries self.new))) }
        ensures none { IfOk result (λ taken. MatchOption taken (nodes.new.items ≡ []) (λ _. Unit {0})) }
        ensures window { IfOk result (λ taken. MatchOption taken (Unit {0}) (λ bucket. (v : ℕ) → bucket ≤ v / width self.old → v / width self.old < bucket + span self.old → accepts self.new v)) }
        ensures kept { IfOk result (λ taken. MatchOption taken (entries self.new ≡ entries self.old) (λ _. Unit {0})) }
        ensures tentative { tentative self.new ≡ tentative self.old }
        ensures width { width self.new ≡ width self.old }
        ensures span { span self.new ≡ span self.old };
}
