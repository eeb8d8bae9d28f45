//! The values that a search lowers.

ghost use Rattle.std.specs.Prelude.{◌≡◌, ℕ, ◌≤◌, ◌<◌, ◌+◌, ◌^◌, List, All, Option, Some, IfOk, OnOk, OnErr, IsSome, length, slice_set};
ghost use Rattle.relax.specs.Values.{no_value, value_at, value_or};
ghost use Rattle.relax.specs.Requests.{requests_of};

use relax::{Team, Tentative};
use roadnet::OutOfMemory;
use snapshot::{Part, Snapshot};
use std::alloc::{AllocError, Global};

/// The tentative value of each node of a network that has one.
pub trait SearchValues {
    /// The values, from number 0 on.
    ghost values: { Self → List (Option ℕ) };

    /// It has noted that it has no words for this value, if it has none.
    ghost notes: { Self → ℕ → Type 0 };

    /// The value of a node, if it has one.
    fn value(&self, node: u32) -> Option<u64>
        requires node { (1 ≤ node) × (node < length (values self.now)) }
        ensures value { result ≡ value_at (values self.now) node };

    /// The requests of these nodes, as the team computes them where it can read the values. The only error is lack of memory, for 16 bytes a leg.
    fn requests<T: Team>(
        &self,
        alloc: Global,
        snapshot: &Snapshot,
        team: &T,
        nodes: &[u32],
        part: Part,
    ) -> Result<Vec<(u32, u64)>, OutOfMemory>
        requires nodes { All (λ u. (1 ≤ u) × (u ≤ snapshot.now.nodes)) nodes.now }
        requires size { length (values self.now) ≡ snapshot.now.nodes + 1 }
        requires values { All (λ u. IsSome (value_at (values self.now) u) × (value_or 0 (values self.now) u < 2 ^ 56)) nodes.now }
        ensures requests { IfOk result (λ list. list.items ≡ requests_of snapshot.now nodes.now (values self.now) part) };

    /// Sets the value of a node, which is below 2^64 - 1. Its errors are lack of memory, and a value for which there are no words, of which it takes note. After an
    /// error the values are as they were.
    fn set(&mut self, node: u32, value: u64) -> Result<(), AllocError>
        requires node { (1 ≤ node) × (node < length (values self.old)) }
        requires small { value < no_value }
        ensures set { OnOk result (values self.new ≡ slice_set (values self.old) node (Some value)) }
        ensures same { OnErr result (values self.new ≡ values self.old) }
        ensures noted { notes self.new value };
}

impl SearchValues for Tentative {
    ghost values = { λ values. values };

    ghost notes = { λ _ _. Unit {0} };

    #[inline(always)]
    fn value(&self, node: u32) -> Option<u64> {
        self.get(node)
    }

    /// The requests that the team computes.
    #[inline(always)]
    fn requests<T: Team>(
        &self,
        alloc: Global,
        snapshot: &Snapshot,
        team: &T,
        nodes: &[u32],
        part: Part,
    ) -> Result<Vec<(u32, u64)>, OutOfMemory> {
        team.requests(alloc, snapshot, nodes, self, part)
    }

    /// Sets the value. There is no error.
    #[inline(always)]
    fn set(&mut self, node: u32, value: u64) -> Result<(), AllocError> {
        Tentative::set(self, node, value);
        Ok(())
    }
}
