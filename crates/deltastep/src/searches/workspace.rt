//! Memory that one search leaves to the next.

ghost use Rattle.std.specs.Prelude.{◌≡◌, ◌+◌, ◌≤◌, [], None, Some, IsOk, IfOk, length, replicate};
ghost use Rattle.frontier.specs.Entries.{IsFresh};
ghost use Rattle.deltastep.specs.Search.{most_lists};

use crate::rows::distances::RowError;
use frontier::{EntryRing, Remembered};
use relax::Tentative;
use std::alloc::Global;

/// Any list of a ring may have so many places, whatever the network.
const FEW_PLACES: usize = 8;

/// The memory that a search needs beside its row, left for the next search, of the same snapshot or another. What does not suit that search is made anew,
/// such as a ring after a search that was led to its target, whose buckets are narrower. It takes no memory before a search has left some. After that it takes
/// at most 17 bytes a node, and 24 to 152 a list; after a led search 24 a list, and 16 for each entry that it had at once, or twice that. After a search for one
/// distance it takes 8 bytes a node more, and 4 for each node that any of them reached.
#[derive(Drop)]
pub struct Workspace {
    ring: Option<EntryRing>,
    remembered: Option<Remembered>,
    values: Option<Tentative>,
}

impl Workspace {
    /// A workspace to which no search has left anything.
    pub fn new() -> Workspace {
        Workspace {
            ring: None,
            remembered: None,
            values: None,
        }
    }

    /// An empty ring of buckets of this width: the one that was left, if it is such a ring with as many lists, otherwise a new one.
    pub(crate) fn take_ring(
        &mut self,
        alloc: Global,
        delta: u32,
        size: u32,
    ) -> Result<EntryRing, RowError>
        requires width { 1 ≤ delta }
        requires some { 1 ≤ size }
        requires few { size ≤ most_lists }
        ensures fresh { IfOk result (λ ring. IsFresh ring.delta ring.last ring.lists.items delta size) }
    {
        if let Some(ring) = self.ring.take() {
            if ring.is_fresh(delta, size) {
                return Ok(ring);
            }
        }
        let ring = EntryRing::new(alloc, delta, size)?;
        Ok(ring)
    }

    /// An empty memory of nodes below the limit: the one that was left, if it has that limit, otherwise a new one.
    pub(crate) fn take_remembered(
        &mut self,
        alloc: Global,
        limit: usize,
    ) -> Result<Remembered, RowError>
        ensures none { IfOk result (λ remembered. remembered ≡ record { limit = limit; nodes = [] }) }
        ensures kept { self.old.remembered ≡ Some (record { limit = limit; nodes = [] }) → IsOk result }
    {
        if let Some(remembered) = self.remembered.take() {
            if remembered.is_fresh(limit) {
                return Ok(remembered);
            }
        }
        Ok(Remembered::new(alloc, limit)?)
    }

    /// Values for so many nodes, of which none has one: those that were left, if they have as many places, otherwise new ones, which note the nodes that
    /// get a value.
    pub(crate) fn take_values(&mut self, alloc: Global, nodes: u32) -> Result<Tentative, RowError>
        ensures blank { IfOk result (λ values. values ≡ replicate (nodes + 1) None) }
    {
        if let Some(values) = self.values.take() {
            if values.is_blank(nodes) {
                return Ok(values);
            }
        }
        let values = Tentative::noting(alloc, nodes)?;
        Ok(values)
    }

    /// Keeps the values of a search for the next one, and removes them all.
    pub fn keep_values(&mut self, values: Tentative)
        ensures { self.new.values ≡ Some (replicate (length values) None) }
    {
        let mut values = values;
        values.wipe();
        self.values = Some(values);
    }

    /// Keeps the ring of a search over so many nodes for the next one, unless it has room for more entries than there are nodes, and a few a list.
    pub(crate) fn keep_ring(&mut self, ring: EntryRing, nodes: u32)
        ensures remembered { self.new.remembered ≡ self.old.remembered }
    {
        let few = ring.size().saturating_mul(FEW_PLACES);
        if ring.places() <= few.saturating_add(nodes as usize) {
            self.ring = Some(ring);
        }
    }

    /// Keeps the ring of a led search for the next one, whatever it has room for: such a ring has many lists, and to look at each would take longer than a
    /// search for a node nearby.
    pub(crate) fn keep_ring_of_keys(&mut self, ring: EntryRing)
        ensures ring { self.new.ring ≡ Some ring }
        ensures remembered { self.new.remembered ≡ self.old.remembered }
    {
        self.ring = Some(ring);
    }

    /// Keeps the memory of nodes of a search, for the next one.
    pub(crate) fn keep_remembered(&mut self, remembered: Remembered)
        ensures remembered { self.new.remembered ≡ Some remembered }
    {
        self.remembered = Some(remembered);
    }
}
