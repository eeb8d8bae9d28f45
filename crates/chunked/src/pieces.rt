//! The items of arrays, in pieces of 1,024, which stand in the tables of a list.

ghost use Rattle.std.specs.Prelude.{◌≡◌, ◌<◌, ◌*◌, List, length, flat_map, OnOk, OnErr, slice_set};
ghost use Rattle.chunked.specs.Tables.{table_items};

use crate::lists::SharedList;
use crate::table::Table;
use std::alloc::AllocError;
use std::sync::Arc;

/// How many items a chunk has.
pub const CHUNK: usize = 1024;

/// How many items the chunks of a table have together.
const TABLE: usize = 262_144;

/// The items of a chunk.
pub(crate) trait Piece: Drop {
    type Item: Copy + Drop;

    /// The items.
    ghost items: { Self → List Self.Item };

    /// There are as many as a chunk has.
    ghost full: { (piece : Self) → length (items piece) ≡ 1024 };

    /// Replaces an item of a chunk: in place, where nobody else has the chunk, else in a copy of it.
    fn put(piece: &mut Arc<Self>, place: usize, item: Self::Item) -> Result<(), AllocError>
        requires place { place < 1024 }
        ensures ok { OnOk result (items piece.new.value ≡ slice_set (items piece.old.value) place item) }
        ensures err { OnErr result (items piece.new.value ≡ items piece.old.value) };
}

/// Replaces an item of a table's chunks, as `put` does.
fn put_in_table<P: Piece>(
    table: &mut Arc<Table<P>>,
    place: usize,
    item: P::Item,
) -> Result<(), AllocError>
    requires place { place < 262144 }
    ensures ok { OnOk result (flat_map P.items (table_items table.new.value) ≡ slice_set (flat_map P.items (table_items table.old.value)) place item) }
    ensures err { OnErr result (flat_map P.items (table_items table.new.value) ≡ flat_map P.items (table_items table.old.value)) }
{
    P::put(
        &mut Arc::make_mut(table)?.items[place / CHUNK],
        place % CHUNK,
        item,
    )
}

impl<P: Piece> SharedList<P> {
    /// Replaces an item of the chunks of a list: in place, where nobody else has its chunk, else in a copy. The one error is want of memory for that, and the
    /// items are as they were.
    pub(crate) fn put(&mut self, place: usize, item: P::Item) -> Result<(), AllocError>
        requires place { place < length self.old * 1024 }
        ensures ok { OnOk result (flat_map P.items self.new ≡ slice_set (flat_map P.items self.old) place item) }
        ensures err { OnErr result (flat_map P.items self.new ≡ flat_map P.items self.old) }
        ensures count { length self.new ≡ length self.old }
    {
        put_in_table(&mut self.tables[place / TABLE], place % TABLE, item)
    }
}
