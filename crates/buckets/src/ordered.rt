ghost use Rattle.std.specs.Prelude.{◌≡◌, ℕ, ◌≤◌, true, OnOk};
ghost use Rattle.std.specs.FinMap as map;
ghost use Rattle.buckets.specs.Lists.{AreEntriesListed, is_listed};

use crate::nodes::{NodeValues, is_in_bucket};
use crate::queue::BucketQueue;
use std::alloc::{AllocError, Global};
use std::collections::BTreeMap;

/// A bucket queue without a window: every value fits.
///
/// It keeps the value of each node in a table, and a list of nodes for each bucket in a search tree. A node that moves to another bucket also stays in the
/// list of the old one; it is dropped from there when that bucket is taken. The tables take 9 bytes a node, up to twice the greatest node that was ever
/// put. The lists take 4 bytes for each put that brought a node into a bucket, until that bucket is taken.
#[derive(Drop)]
pub struct OrderedBuckets {
    alloc: Global,
    delta: u32,
    nodes: NodeValues,
    lists: BTreeMap<u64, Vec<u32>>,
    ghost positive: { 1 ≤ delta },
    ghost listed: { AreEntriesListed delta lists nodes },
}

impl OrderedBuckets {
    /// An empty queue whose buckets span `delta` values each. It takes no memory.
    pub fn new(alloc: Global, delta: u32) -> OrderedBuckets
        requires { 1 ≤ delta }
        ensures width { ⟦<OrderedBuckets as BucketQueue>⟧.width result ≡ delta }
        ensures span { ⟦<OrderedBuckets as BucketQueue>⟧.span result ≡ u64.MAX }
        ensures empty { ⟦<OrderedBuckets as BucketQueue>⟧.entries result ≡ map.empty }
        ensures accepts { (value : ℕ) → ⟦<OrderedBuckets as BucketQueue>⟧.accepts result value }
    {
        OrderedBuckets {
            alloc,
            delta,
            nodes: NodeValues::new(alloc),
            lists: BTreeMap::new(alloc),
        }
    }

    /// Makes sure that the node is in the list of the bucket. If its value is in that bucket, it is there already. If memory runs out, each list has what
    /// it had.
    fn list(&mut self, node: u32, bucket: u64) -> Result<(), AllocError>
        ensures ok { OnOk result (is_listed self.new.lists bucket node ≡ true) }
        ensures kept { (b n : ℕ) → is_listed self.old.lists b n ≡ true → is_listed self.new.lists b n ≡ true }
        ensures nodes { self.new.nodes ≡ self.old.nodes }
        ensures delta { self.new.delta ≡ self.old.delta }
    {
        if is_in_bucket(self.nodes.get(node), self.delta, bucket) {
            return Ok(());
        }
        enlist(&mut self.lists, self.alloc, bucket, node)
    }
}

/// Puts the node into the list of the bucket, in O(log b) for b buckets. If memory runs out, each list has what it had.
fn enlist(
    lists: &mut BTreeMap<u64, Vec<u32>>,
    alloc: Global,
    bucket: u64,
    node: u32,
) -> Result<(), AllocError>
    ensures ok { OnOk result (is_listed lists.new bucket node ≡ true) }
    ensures kept { (b n : ℕ) → is_listed lists.old b n ≡ true → is_listed lists.new b n ≡ true }
{
    if let Some(nodes) = lists.get_mut(&bucket) {
        nodes.push(node)?;
        return Ok(());
    }
    let mut nodes = Vec::new(alloc);
    nodes.push(node)?;
    lists.insert(bucket, nodes)?;
    Ok(())
}

impl BucketQueue for OrderedBuckets {
    ghost entries = { λ q. q.nodes };

    ghost width = { λ q. q.delta };

    ghost span = { λ _. 18446744073709551615 };

    ghost accepts = { λ _ _. Unit {0} };

    /// How many values a bucket spans.
    fn delta(&self) -> u32 {
        self.delta
    }

    /// 2^64 - 1.
    fn window(&self) -> u64 {
        u64::MAX
    }

    /// Whether no node is queued, in O(1).
    fn is_empty(&self) -> bool {
        self.nodes.is_empty()
    }

    /// True.
    fn fits(&self, _value: u64) -> bool {
        true
    }

    /// Queues a node with this value, in amortized O(log b) for b buckets: a table that is too small for the node doubles.
    fn put(&mut self, node: u32, value: u64) -> Result<(), AllocError> {
        let bucket = value / u64::from(self.delta);
        self.list(node, bucket)?;
        self.nodes.set(node, value)
    }

    /// Takes out the nodes of the least bucket, as `take_least_into` does.
    fn take_least(&mut self) -> Result<Option<(u64, Vec<u32>)>, AllocError> {
        let mut nodes = Vec::new(self.alloc);
        match self.take_least_into(&mut nodes)? {
            Some(bucket) => Ok(Some((bucket, nodes))),
            None => Ok(None),
        }
    }

    /// Takes out the nodes of the least bucket, in O(log b + k log k) for b buckets and a list of k nodes. Lists without nodes are dropped on the way, in
    /// O(1) for each node that was in them. It takes no memory, so there is no error.
    fn take_least_into(&mut self, nodes: &mut Vec<u32>) -> Result<Option<u64>, AllocError> {
        nodes.clear();
        while let Some((bucket, mut list)) = self.lists.pop_first() {
            self.nodes.keep_bucket(self.delta, bucket, &mut list);
            if !list.is_empty() {
                self.nodes.remove_all(&list);
                *nodes = list;
                return Ok(Some(bucket));
            }
        }
        Ok(None)
    }
}
