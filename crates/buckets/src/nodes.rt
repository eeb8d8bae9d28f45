// The values of the nodes that are queued.

ghost use Rattle.std.specs.Prelude.{◌≡◌, ℕ, ◌≤◌, ◌<◌, ◌/◌, ◌↔◌, true, false, IsTrue, IsSome, OnOk, OnErr, None, Some, length, slice_index_or};
ghost use Rattle.std.specs.FinMap as map;
ghost use Rattle.buckets.specs.Lists.{has_node};
ghost use Rattle.buckets.specs.Queue.{bucket, is_in_bucket};
ghost use Rattle.buckets.specs.Tables.{entries_of, without};

use std::alloc::{AllocError, Global};
use std::marker::Model;

/// A map from nodes to values, in two tables. They reach at least up to the greatest node that the map ever had, and at most to twice that, since they grow
/// by doubling. They take 9 bytes for each place.
#[derive(Drop)]
pub struct NodeValues {
    values: Vec<u64>,
    queued: Vec<bool>,
    count: usize,
}

impl Model for NodeValues {
    ghost use Rattle.std.specs.Coded.{coded_ℕ};
    ghost use Rattle.std.specs.FinMap as map;
    ghost use Rattle.buckets.specs.Queue.{Entries};
    ghost use Rattle.buckets.specs.Tables.{IsTable, entries_of};

    ghost Value = { Entries };

    ghost coded = { map.code coded_ℕ coded_ℕ };

    ghost view = { λ a. entries_of a.values.items a.queued.items };

    ghost invariant = { λ a. IsTable a.count a.values.items a.queued.items };
}

/// Whether there is a value, and it is in this bucket.
pub fn is_in_bucket(value: Option<u64>, delta: u32, bucket: u64) -> bool
    requires { 1 ≤ delta }
    ensures { result ≡ is_in_bucket delta bucket value }
{
    match value {
        Some(value) => value / u64::from(delta) == bucket,
        None => false,
    }
}

/// Makes room in both tables for this many nodes, and for twice as many as there are places. If memory runs out, the tables may have grown, but they are
/// still the same map.
fn grow(values: &mut Vec<u64>, queued: &mut Vec<bool>, nodes: usize) -> Result<(), AllocError>
    requires { length queued.old.items ≤ length values.old.items }
    ensures room { OnOk result (nodes ≤ length queued.new.items) }
    ensures sized { length queued.new.items ≤ length values.new.items }
    ensures same { entries_of values.new.items queued.new.items ≡ entries_of values.old.items queued.old.items }
{
    let room = nodes.max(queued.len().saturating_mul(2));
    values.resize(room.max(values.len()), 0)?;
    queued.resize(room.max(queued.len()), false)?;
    Ok(())
}

/// Makes room in both tables for this many nodes, if there is not enough. If memory runs out, they are still the same map.
#[inline(always)]
fn make_room(values: &mut Vec<u64>, queued: &mut Vec<bool>, nodes: usize) -> Result<(), AllocError>
    requires { length queued.old.items ≤ length values.old.items }
    ensures room { OnOk result (nodes ≤ length queued.new.items) }
    ensures sized { length queued.new.items ≤ length values.new.items }
    ensures same { entries_of values.new.items queued.new.items ≡ entries_of values.old.items queued.old.items }
{
    if nodes <= queued.len() {
        return Ok(());
    }
    grow(values, queued, nodes)
}

/// Whether the node of this place is queued.
#[inline(always)]
fn is_queued(queued: &[bool], place: usize) -> bool
    ensures value { result ≡ slice_index_or queued.now place false }
    ensures within { IsTrue result → place < length queued.now }
{
    place < queued.len() && queued[place]
}

impl NodeValues {
    /// The empty map. It takes no memory.
    pub fn new(alloc: Global) -> NodeValues
        ensures { result ≡ map.empty }
    {
        NodeValues {
            values: Vec::new(alloc),
            queued: Vec::new(alloc),
            count: 0,
        }
    }

    /// Whether no node has a value, in O(1).
    pub fn is_empty(&self) -> bool
        ensures { IsTrue result ↔ (self.now ≡ map.empty) }
    {
        self.count == 0
    }

    /// Whether exactly one node has a value, in O(1).
    #[inline(always)]
    pub fn is_single(&self) -> bool
        ensures { IsTrue result ↔ (map.len self.now ≡ 1) }
    {
        self.count == 1
    }

    /// The value of the node, if it has one, in O(1).
    #[inline(always)]
    pub fn get(&self, node: u32) -> Option<u64>
        ensures { result ≡ map.get self.now node }
    {
        let place = node as usize;
        if is_queued(&self.queued, place) {
            Some(self.values[place])
        } else {
            None
        }
    }

    /// Sets the value of the node, and replaces an earlier one. It takes O(1), or O(n) if a table grows, which doubles it. If memory runs out, the map is
    /// as it was.
    #[inline(always)]
    pub fn set(&mut self, node: u32, value: u64) -> Result<(), AllocError>
        ensures ok { OnOk result (self.new ≡ map.insert self.old node value) }
        ensures err { OnErr result (self.new ≡ self.old) }
    {
        let place = node as usize;
        make_room(&mut self.values, &mut self.queued, place + 1)?;
        self.values[place] = value;
        if is_queued(&self.queued, place) {
            return Ok(());
        }
        self.queued[place] = true;
        self.count += 1;
        Ok(())
    }

    /// Sets the value of a node that has none. It takes O(1), or O(n) if a table grows, which doubles it. If memory runs out, the map is as it was.
    #[inline(always)]
    pub fn add(&mut self, node: u32, value: u64) -> Result<(), AllocError>
        requires { map.get self.old node ≡ None }
        ensures ok { OnOk result (self.new ≡ map.insert self.old node value) }
        ensures err { OnErr result (self.new ≡ self.old) }
    {
        let place = node as usize;
        make_room(&mut self.values, &mut self.queued, place + 1)?;
        self.values[place] = value;
        self.queued[place] = true;
        self.count += 1;
        Ok(())
    }

    /// Changes the value of a node that has one, in O(1).
    #[inline(always)]
    pub fn change(&mut self, node: u32, value: u64)
        requires { IsSome (map.get self.old node) }
        ensures { self.new ≡ map.insert self.old node value }
    {
        self.values[node as usize] = value;
    }

    /// Removes the value of the node, if it has one, in O(1).
    #[inline(always)]
    pub fn remove(&mut self, node: u32)
        ensures { self.new ≡ map.remove self.old node }
    {
        let place = node as usize;
        if is_queued(&self.queued, place) {
            self.queued[place] = false;
            self.count -= 1;
        }
    }

    /// Removes the values of these nodes, in O(1) each.
    pub fn remove_all(&mut self, nodes: &[u32])
        ensures { self.new ≡ without nodes.now self.old }
    {
        for &node in nodes {
            self.remove(node);
        }
    }

    /// Of these nodes, among which are all those of this bucket, keeps only those of this bucket, ascending and each once. It takes O(k log k) for k nodes,
    /// and no memory.
    pub fn keep_bucket(&self, delta: u32, number: u64, nodes: &mut Vec<u32>)
        requires positive { 1 ≤ delta }
        requires all { (node value : ℕ) → map.get self.now node ≡ Some value → value / delta ≡ number → has_node nodes.old.items node ≡ true }
        ensures { nodes.new.items ≡ map.keys (bucket delta number self.now) }
    {
        nodes.retain(|node| is_in_bucket(self.get(*node), delta, number));
        nodes.sort_unstable();
        nodes.dedup();
    }
}
