//! The blocks of a network's arcs, all of them anew, or those alone whose arcs changed.

ghost use Rattle.std.specs.Prelude.{◌≡◌, ℕ, ◌+◌, ◌/◌, ◌*◌, ◌≤◌, ◌<◌, ◌^◌, [], true, false, All, IfOk, OnOk, Contains, length, map, slice_index_or};
ghost use Rattle.roadnet.specs.declared.arcs.RoadArc.{RoadArc as road_arc};
ghost use Rattle.snapshot.specs.declared.blocks.Block.{Block as any_block};
ghost use Rattle.snapshot.specs.Blocks.{AreBlockParts, AreBlocksOf, arcs_of_block, block_parts, places_of_block, within_block};

use crate::blocks::{BLOCK, Block};
use crate::roads::Roads;
use chunked::{ChunkedArray, SharedList};
use roadnet::RoadArc;
use std::alloc::{AllocError, Global};
use std::sync::Arc;

/// The arc, its tail counted from the first one of its block.
pub(crate) fn within_block(arc: &RoadArc) -> RoadArc
    ensures { result ≡ within_block arc.now }
{
    RoadArc {
        tail: arc.tail % BLOCK,
        head: arc.head,
        length: arc.length,
        opened: arc.opened,
    }
}

/// The arcs at these places, their tails counted from the first one of their block, in a list whose earlier content is lost.
fn find_arcs<R: Roads>(
    found: &mut Vec<RoadArc>,
    roads: &R,
    places: &[u32],
) -> Result<(), AllocError>
    requires { All (λ place. place < length (R.network roads.now).arcs) places.now }
    ensures { OnOk result ((d : road_arc) → found.new.items ≡ map (λ place. within_block (slice_index_or (R.network roads.now).arcs place d)) places.now) }
{
    found.clear();
    for &place in places {
        found.push(within_block(&roads.arc_at_place(place as usize)))?;
    }
    Ok(())
}

/// The arcs of a block, at whose places they are, grouped. The list is for the time being.
fn regrouped<R: Roads>(
    alloc: Global,
    roads: &R,
    places: &[u32],
    delta: u32,
    found: &mut Vec<RoadArc>,
) -> Result<Block, AllocError>
    requires few { length (R.network roads.now).arcs ≤ 2 ^ 26 }
    requires places { (block : ℕ) × (places.now ≡ places_of_block block 0 (R.network roads.now).arcs) }
    ensures { IfOk result (λ made. (block : ℕ) → places.now ≡ places_of_block block 0 (R.network roads.now).arcs → AreBlockParts (arcs_of_block block (R.network roads.now).arcs) delta (block_parts made.starts made.legs.items)) }
{
    find_arcs(found, roads, places)?;
    Block::group(alloc, found, delta)
}

/// The blocks of all arcs.
pub(crate) fn all_blocks<R: Roads>(
    alloc: Global,
    roads: &R,
    index: &[Arc<Vec<u32>>],
    delta: u32,
) -> Result<SharedList<Block>, AllocError>
    requires few { length (R.network roads.now).arcs ≤ 2 ^ 26 }
    requires size { length index.now < 2 ^ 48 }
    requires index { (block : ℕ) → block < length index.now → slice_index_or (map (λ places. places.value.items) index.now) block [] ≡ places_of_block block 0 (R.network roads.now).arcs }
    ensures count { IfOk result (λ blocks. length blocks ≡ length index.now) }
    ensures each { IfOk result (λ blocks. AreBlocksOf (R.network roads.now).arcs delta (map (λ block. block_parts block.starts block.legs.items) blocks)) }
{
    let mut blocks = SharedList::with_capacity(alloc, index.len())?;
    let mut found = Vec::new(alloc);
    for places in index {
        blocks.push(regrouped(alloc, roads, places, delta, &mut found)?)?;
    }
    Ok(blocks)
}

/// Marks the block of the arc of this number, if there is one.
fn touch(touched: &mut [bool], arcs: &ChunkedArray<RoadArc>, number: u32)
    requires tails { All (λ arc. arc.tail < length touched.old * 1024) arcs.now }
    ensures own { (place : ℕ) (d : road_arc) → place < length arcs.now → place + 1 ≡ number → slice_index_or touched.new ((slice_index_or arcs.now place d).tail / 1024) true ≡ true }
    ensures kept { (block : ℕ) → slice_index_or touched.old block true ≡ true → slice_index_or touched.new block true ≡ true }
    ensures count { length touched.new ≡ length touched.old }
{
    if 1 <= number && number as usize <= arcs.len() {
        let tail = arcs.get(number as usize - 1).tail;
        touched[(tail / BLOCK) as usize] = true;
    }
}

/// Which of so many blocks are touched, if these arcs change.
pub(crate) fn touched_blocks(
    alloc: Global,
    arcs: &ChunkedArray<RoadArc>,
    changed: &[u32],
    count: usize,
) -> Result<Vec<bool>, AllocError>
    requires tails { All (λ arc. arc.tail < count * 1024) arcs.now }
    ensures count { IfOk result (λ touched. length touched.items ≡ count) }
    ensures touched { IfOk result (λ touched. (place : ℕ) (d : road_arc) → place < length arcs.now → Contains changed.now (place + 1) → slice_index_or touched.items ((slice_index_or arcs.now place d).tail / 1024) true ≡ true) }
{
    let mut touched = vec![in alloc; false; count]?;
    for &number in changed {
        touch(&mut touched, arcs, number);
    }
    Ok(touched)
}

/// The blocks of all arcs, out of older ones that are theirs where they are not touched: those are shared, and the others are made anew.
pub(crate) fn blocks_after<R: Roads>(
    alloc: Global,
    old: &SharedList<Block>,
    roads: &R,
    index: &[Arc<Vec<u32>>],
    delta: u32,
    touched: &[bool],
) -> Result<SharedList<Block>, AllocError>
    requires few { length (R.network roads.now).arcs ≤ 2 ^ 26 }
    requires index { (block : ℕ) → block < length index.now → slice_index_or (map (λ places. places.value.items) index.now) block [] ≡ places_of_block block 0 (R.network roads.now).arcs }
    requires blocks { length index.now ≡ length old.now }
    requires flags { length touched.now ≡ length old.now }
    requires untouched { (block : ℕ) → block < length old.now → slice_index_or touched.now block true ≡ false → AreBlockParts (arcs_of_block block (R.network roads.now).arcs) delta (slice_index_or (map (λ block. block_parts block.starts block.legs.items) old.now) block []) }
    ensures count { IfOk result (λ blocks. length blocks ≡ length old.now) }
    ensures each { IfOk result (λ blocks. AreBlocksOf (R.network roads.now).arcs delta (map (λ block. block_parts block.starts block.legs.items) blocks)) }
    ensures kept { IfOk result (λ blocks. (block : ℕ) (d : any_block) → slice_index_or touched.now block true ≡ false → slice_index_or blocks block d ≡ slice_index_or old.now block d) }
{
    let mut blocks = old.share()?;
    let mut found = Vec::new(alloc);
    for block in 0..touched.len() {
        if !touched[block] {
            continue;
        }
        let next = regrouped(alloc, roads, &index[block], delta, &mut found)?;
        blocks.set(block, next)?;
    }
    Ok(blocks)
}
