//! The lengths of the legs of blocks: the greatest, and the mean.

ghost use Rattle.std.specs.Prelude.{◌≡◌, ◌<◌, ℕ, true, false, fold, length, map, max, slice_index_or};
ghost use Rattle.snapshot.specs.declared.blocks.Block.{Block as any_block};

use crate::blocks::Block;
use chunked::SharedList;

/// The greatest length of a leg of these blocks, or 0 where they have none.
pub(crate) fn greatest_of(blocks: &SharedList<Block>) -> u32
    ensures { result ≡ fold max 0 (map (λ block. block.greatest) blocks.now) }
{
    let mut greatest = 0u32;
    for place in 0..blocks.len() {
        greatest = greatest.max(blocks.get(place).greatest);
    }
    greatest
}

/// The same of blocks of which only touched ones are not those before, given what it was. All blocks are looked at only where a touched one had that length.
pub(crate) fn greatest_after(
    old: &SharedList<Block>,
    was: u32,
    blocks: &SharedList<Block>,
    touched: &[bool],
) -> u32
    requires was { was ≡ fold max 0 (map (λ block. block.greatest) old.now) }
    requires count { length blocks.now ≡ length old.now }
    requires flags { length touched.now ≡ length old.now }
    requires kept { (block : ℕ) (d : any_block) → slice_index_or touched.now block true ≡ false → slice_index_or blocks.now block d ≡ slice_index_or old.now block d }
    ensures { result ≡ fold max 0 (map (λ block. block.greatest) blocks.now) }
{
    let mut most = 0u32;
    for place in 0..touched.len() {
        if !touched[place] {
            continue;
        }
        if old.get(place).greatest == was {
            return greatest_of(blocks);
        }
        most = most.max(blocks.get(place).greatest);
    }
    most.max(was)
}

/// How many legs there are, and how long they are together.
#[derive(Clone, Copy, Debug, PartialEq, Eq)]
pub(crate) struct Sums {
    count: u64,
    total: u64,
}

impl Sums {
    /// With those of a block.
    fn with(self, block: &Block) -> Sums {
        Sums {
            count: self.count.saturating_add(block.legs.len() as u64),
            total: self.total.saturating_add(block.total),
        }
    }

    /// Without those of a block.
    fn without(self, block: &Block) -> Sums {
        Sums {
            count: self.count.saturating_sub(block.legs.len() as u64),
            total: self.total.saturating_sub(block.total),
        }
    }

    /// Those of blocks.
    pub(crate) fn of(blocks: &SharedList<Block>) -> Sums {
        let mut sums = Sums { count: 0, total: 0 };
        for place in 0..blocks.len() {
            sums = sums.with(blocks.get(place));
        }
        sums
    }

    /// Those of blocks of which only touched ones are not those before, given the sums of these.
    pub(crate) fn after(
        self,
        old: &SharedList<Block>,
        blocks: &SharedList<Block>,
        touched: &[bool],
    ) -> Sums
        requires count { length blocks.now ≡ length old.now }
        requires flags { length touched.now ≡ length old.now }
    {
        let mut sums = self;
        for place in 0..touched.len() {
            if touched[place] {
                sums = sums.without(old.get(place)).with(blocks.get(place));
            }
        }
        sums
    }

    /// The mean length of a leg, rounded down, or 0 where there is none.
    pub(crate) fn mean(self) -> u64 {
        self.total / self.count.max(1)
    }
}
