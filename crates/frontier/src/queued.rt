//! A frontier made of values and a bucket queue.

ghost use Rattle.std.specs.Prelude.{◌≡◌};

use crate::frontier::Frontier;
use crate::lower::is_lower;
use buckets::BucketQueue;
use relax::{Team, Tentative};
use roadnet::OutOfMemory;
use snapshot::{Part, Snapshot};
use std::alloc::{AllocError, Global};

/// Tentative values, and a queue of the nodes whose legs are still to be relaxed.
#[derive(Drop)]
pub struct Queued<Q> {
    pub tentative: Tentative,
    pub buckets: Q,
}

impl<Q: BucketQueue> Frontier for Queued<Q> {
    ghost tentative = { λ q. q.tentative };

    ghost entries = { λ q. Q.entries q.buckets };

    ghost width = { λ q. Q.width q.buckets };

    ghost span = { λ q. Q.span q.buckets };

    ghost accepts = { λ q. Q.accepts q.buckets };

    ghost notes = { λ _ _. Unit {0} };

    /// How many values a bucket of the queue spans.
    #[inline(always)]
    fn delta(&self) -> u32 {
        self.buckets.delta()
    }

    /// The value of a node.
    #[inline(always)]
    fn value(&self, node: u32) -> Option<u64> {
        self.tentative.get(node)
    }

    /// The requests that the team computes.
    #[inline(always)]
    fn requests<T: Team>(
        &self,
        alloc: Global,
        snapshot: &Snapshot,
        team: &T,
        nodes: &[u32],
        part: Part,
    ) -> Result<Vec<(u32, u64)>, OutOfMemory> {
        team.requests(alloc, snapshot, nodes, &self.tentative, part)
    }

    /// Lowers a node's value, and puts it into the queue.
    #[inline(always)]
    fn lower(&mut self, top: u64, node: u32, value: u64) -> Result<bool, AllocError> {
        if !is_lower(self.tentative.get(node), top, value) {
            return Ok(false);
        }
        self.buckets.put(node, value)?;
        self.tentative.set(node, value);
        Ok(true)
    }

    /// Takes out the nodes of the least bucket of the queue, ascending.
    #[inline(always)]
    fn take_least_into(&mut self, nodes: &mut Vec<u32>) -> Result<Option<u64>, AllocError> {
        self.buckets.take_least_into(nodes)
    }
}
