ghost use Rattle.std.specs.Prelude.{◌≡◌, ℕ, ◌*◌, ◌+◌, ◌≤◌, ◌<◌, ◌^◌, ◌++◌, [], ◌∷◌, All, IfOk, OnOk, length, map, replicate, slice_index_or, take};
ghost use Rattle.roadnet.specs.Ends.{KeepsEnds};
ghost use Rattle.snapshot.specs.Blocks.{places_of_block};

use crate::blocks::BLOCK;
use crate::roads::Roads;
use roadnet::OutOfMemory;
use shared_network::SharedNetwork;
use std::alloc::{AllocError, Global};
use std::marker::Model;
use std::sync::Arc;

/// Which arcs leave which tails: of each block of 1,024 tails the places of its arcs, open or closed, 4 bytes each. No command changes an arc's tail, so it
/// serves all versions of a network until an arc is laid, and then the next one shares the lists of all blocks but that arc's.
#[derive(Drop)]
pub struct ArcIndex {
    pub(crate) blocks: Vec<Arc<Vec<u32>>>,
}

impl Model for ArcIndex {
    ghost use Rattle.std.specs.Prelude.{ℕ, List, map};

    ghost Value = { List (List ℕ) };

    ghost view = { λ a. map (λ places. places.value.items) a.blocks.items };
}

/// How many arcs each of so many blocks has.
fn arcs_by_block<R: Roads>(alloc: Global, roads: &R, count: usize) -> Result<Vec<u32>, AllocError>
    requires tails { All (λ arc. arc.tail < count * 1024) (R.network roads.now).arcs }
    ensures { IfOk result (λ counts. length counts.items ≡ count) }
{
    let mut counts = vec![in alloc; 0u32; count]?;
    for place in 0..roads.arc_count() {
        let block = (roads.arc_at_place(place).tail / BLOCK) as usize;
        counts[block] = counts[block].saturating_add(1);
    }
    Ok(counts)
}

/// An empty list for each of these numbers, with room for so many places.
fn empty_lists(alloc: Global, counts: &[u32]) -> Result<Vec<Arc<Vec<u32>>>, AllocError>
    ensures { IfOk result (λ lists. map (λ list. list.value.items) lists.items ≡ replicate (length counts.now) []) }
{
    let mut lists = Vec::with_capacity(alloc, counts.len())?;
    for &count in counts {
        let list = Vec::with_capacity(alloc, count as usize)?;
        lists.push(Arc::new(alloc, list)?)?;
    }
    Ok(lists)
}

/// Adds a place to a list: to the list itself, where nobody else has it, else to a copy.
fn add_place(alloc: Global, list: &mut Arc<Vec<u32>>, place: u32) -> Result<(), AllocError>
    ensures { OnOk result (list.new.value.items ≡ list.old.value.items ++ place ∷ []) }
{
    if let Some(own) = Arc::get_mut(list) {
        own.push(place)?;
        return Ok(());
    }
    let mut copy = Vec::with_capacity(alloc, list.len().saturating_add(1))?;
    copy.extend_from_slice(list)?;
    copy.push(place)?;
    *list = Arc::new(alloc, copy)?;
    Ok(())
}

/// Adds the places of the arcs from this one on to the lists of their blocks, which have those of the arcs before it.
fn add_places<R: Roads>(
    alloc: Global,
    lists: &mut [Arc<Vec<u32>>],
    roads: &R,
    from: usize,
) -> Result<(), AllocError>
    requires few { length (R.network roads.now).arcs ≤ 2 ^ 26 }
    requires from { from ≤ length (R.network roads.now).arcs }
    requires tails { All (λ arc. arc.tail < length lists.old * 1024) (R.network roads.now).arcs }
    requires before { (block : ℕ) → block < length lists.old → slice_index_or (map (λ list. list.value.items) lists.old) block [] ≡ places_of_block block 0 (take from (R.network roads.now).arcs) }
    ensures added { OnOk result ((block : ℕ) → block < length lists.old → slice_index_or (map (λ list. list.value.items) lists.new) block [] ≡ places_of_block block 0 (R.network roads.now).arcs) }
    ensures blocks { length lists.new ≡ length lists.old }
{
    for place in from..roads.arc_count() {
        let block = (roads.arc_at_place(place).tail / BLOCK) as usize;
        add_place(alloc, &mut lists[block], place as u32)?;
    }
    Ok(())
}

/// Shares of these lists, at the cost of a counter each.
fn shares(lists: &Vec<Arc<Vec<u32>>>) -> Result<Vec<Arc<Vec<u32>>>, AllocError>
    ensures { IfOk result (λ same. map (λ list. list.value.items) same.items ≡ map (λ list. list.value.items) lists.now.items) }
{
    Ok(lists.clone()?)
}

impl ArcIndex {
    ghost use Rattle.snapshot.specs.Blocks.{AreArcsByBlock};

    /// The index of a network's arcs, by two passes over them. The one error is want of memory.
    pub fn build<R: Roads>(alloc: Global, roads: &R) -> Result<ArcIndex, OutOfMemory>
        ensures { IfOk result (AreArcsByBlock (R.network roads.now).nodes (R.network roads.now).arcs) }
    {
        let count = (roads.node_count() / BLOCK) as usize + 1;
        let counts = arcs_by_block(alloc, roads, count)?;
        let mut blocks = empty_lists(alloc, &counts)?;
        add_places(alloc, &mut blocks, roads, 0)?;
        Ok(ArcIndex { blocks })
    }

    /// The index of a newer network, given the older one, of which this is the index. It shares the lists of all blocks of which no arc was laid, at the cost
    /// of a counter each. The one error is want of memory.
    pub fn after(
        &self,
        alloc: Global,
        older: &SharedNetwork,
        newer: &SharedNetwork,
    ) -> Result<ArcIndex, OutOfMemory>
        requires index { AreArcsByBlock older.now.nodes older.now.arcs self.now }
        requires ends { KeepsEnds older.now newer.now }
        ensures { IfOk result (AreArcsByBlock newer.now.nodes newer.now.arcs) }
    {
        let _newer = newer.nodes();
        let mut blocks = shares(&self.blocks)?;
        add_places(alloc, &mut blocks, newer, older.arcs().len())?;
        Ok(ArcIndex { blocks })
    }
}
