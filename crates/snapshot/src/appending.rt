//! More legs in blocks of which no leg is heavy.

ghost use Rattle.std.specs.Prelude.{◌≡◌, ℕ, ◌≤◌, ◌<◌, ◌*◌, ◌/◌, ◌++◌, [], ◌∷◌, All, OnOk, IfOk, IfSome, flat_map, length, map, slice_index_or};
ghost use Rattle.std.specs.Bool.{OnTrue};
ghost use Rattle.snapshot.specs.Appended.{AreLight, HasMore, arc_of};
ghost use Rattle.snapshot.specs.Blocks.{AreBlockParts, block_parts, within_block};

use crate::blocks::{BLOCK, Block};
use crate::legs::{Leg, Part};
use crate::regrouping::within_block;
use chunked::SharedList;
use roadnet::{MOST_ARCS, RoadArc};
use std::alloc::{AllocError, Global};

/// Adds the open arcs of this tail that have these legs.
fn add_arcs(found: &mut Vec<RoadArc>, tail: u32, legs: &[Leg]) -> Result<(), AllocError>
    ensures { OnOk result (found.new.items ≡ found.old.items ++ map (arc_of tail) legs.now) }
{
    for leg in legs {
        found.push(RoadArc {
            tail,
            head: leg.head,
            length: leg.length,
            opened: true,
        })?;
    }
    Ok(())
}

/// The open arcs that have the light legs of a block, their tails counted from its first, in a list whose earlier content is lost.
fn find_light(found: &mut Vec<RoadArc>, block: &Block) -> Result<(), AllocError>
    ensures tails { OnOk result (All (λ arc. arc.tail ≤ 1023) found.new.items) }
    ensures legs { OnOk result ((delta : ℕ) → AreLight delta (block_parts block.now.starts block.now.legs.items) → AreBlockParts found.new.items delta (block_parts block.now.starts block.now.legs.items)) }
{
    found.clear();
    for tail in 0..BLOCK {
        add_arcs(found, tail, block.legs(false, tail, Part::Light))?;
    }
    Ok(())
}

/// A block with the leg of one arc more, behind those of its tail; or nothing, if that is heavy or if a block may not have so many. The list is for the time
/// being.
fn with_arc(
    alloc: Global,
    block: &Block,
    arc: &RoadArc,
    delta: u32,
    found: &mut Vec<RoadArc>,
) -> Result<Option<Block>, AllocError>
    ensures short { IfOk result (λ made. IfSome made (λ more. arc.now.length ≤ delta)) }
    ensures legs { IfOk result (λ made. IfSome made (λ more. AreLight delta (block_parts block.now.starts block.now.legs.items) → HasMore 1024 (within_block arc.now ∷ []) delta (block_parts block.now.starts block.now.legs.items) (block_parts more.starts more.legs.items))) }
{
    find_light(found, block)?;
    found.push(within_block(arc))?;
    if arc.length > delta || found.len() > MOST_ARCS as usize {
        return Ok(None);
    }
    Ok(Some(Block::group(alloc, found, delta)?))
}

/// Puts the leg of an arc behind those of its tail, in a block that is made anew. Returns whether it could.
fn add_leg(
    alloc: Global,
    blocks: &mut SharedList<Block>,
    arc: &RoadArc,
    delta: u32,
    found: &mut Vec<RoadArc>,
) -> Result<bool, AllocError>
    requires tail { arc.now.tail / 1024 < length blocks.old }
    ensures count { length blocks.new ≡ length blocks.old }
    ensures short { IfOk result (λ done. OnTrue done (arc.now.length ≤ delta)) }
    ensures legs { IfOk result (λ done. OnTrue done (AreLight delta (flat_map (λ block. block_parts block.starts block.legs.items) blocks.old) → HasMore (length blocks.old * 1024) (arc.now ∷ []) delta (flat_map (λ block. block_parts block.starts block.legs.items) blocks.old) (flat_map (λ block. block_parts block.starts block.legs.items) blocks.new))) }
{
    let place = (arc.tail / BLOCK) as usize;
    let Some(more) = with_arc(alloc, blocks.get(place), arc, delta, found)? else {
        return Ok(false);
    };
    blocks.set(place, more)?;
    Ok(true)
}

/// These blocks, with the legs of arcs behind those of their tails: the blocks of these are made anew, and the others are shared. It is nothing if an arc is
/// heavy.
pub(crate) fn with_legs(
    alloc: Global,
    blocks: &SharedList<Block>,
    arcs: &[RoadArc],
    delta: u32,
) -> Result<Option<SharedList<Block>>, AllocError>
    requires tails { All (λ arc. arc.tail / 1024 < length blocks.now) arcs.now }
    ensures count { IfOk result (λ made. IfSome made (λ more. length more ≡ length blocks.now)) }
    ensures short { IfOk result (λ made. IfSome made (λ more. All (λ arc. arc.length ≤ delta) arcs.now)) }
    ensures legs { IfOk result (λ made. IfSome made (λ more. AreLight delta (flat_map (λ block. block_parts block.starts block.legs.items) blocks.now) → HasMore (length blocks.now * 1024) arcs.now delta (flat_map (λ block. block_parts block.starts block.legs.items) blocks.now) (flat_map (λ block. block_parts block.starts block.legs.items) more))) }
{
    let mut more = blocks.share()?;
    let mut found = Vec::new(alloc);
    for arc in arcs {
        if !add_leg(alloc, &mut more, arc, delta, &mut found)? {
            return Ok(None);
        }
    }
    Ok(Some(more))
}
