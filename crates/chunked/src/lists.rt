ghost use Rattle.std.specs.Prelude.{◌≡◌};

use crate::table::Table;
use crate::tables::{ITEMS, item_at, lay, put};
use std::alloc::{AllocError, Global};
use std::marker::Model;
use std::sync::Arc;

/// A list of items of any size, each behind a counter, in tables of 256, which its versions share. To share it costs a counter for each 256 items, and a
/// change copies the table that it touches, unless nobody else has it.
#[derive(Drop)]
pub struct SharedList<C> {
    pub(crate) len: usize,
    pub(crate) tables: Vec<Arc<Table<C>>>,
}

impl<C> Model for SharedList<C> {
    ghost use Rattle.std.specs.Prelude.{◌≤◌, ◌*◌, List, take, length};
    ghost use Rattle.chunked.specs.Tables.{items_of};

    ghost Value = { List C };

    ghost view = { λ a. take a.len (items_of a.tables.items) };

    ghost invariant = { λ a. a.len ≤ length a.tables.items * 256 };
}

impl<C: Drop> SharedList<C> {
    ghost use Rattle.chunked.specs.Tables.{items_of};
    ghost use Rattle.std.specs.Prelude.{◌≡◌, ◌≤◌, ◌<◌, ◌*◌, ◌^◌, ◌++◌, [], ◌∷◌, length, take, IfOk, OnOk, OnErr, slice_index_or, slice_set};

    /// No items, with room for so many.
    pub fn with_capacity(alloc: Global, count: usize) -> Result<SharedList<C>, AllocError>
        ensures { IfOk result (λ list. list ≡ []) }
    {
        let tables = Vec::with_capacity(alloc, count.div_ceil(ITEMS))?;
        Ok(SharedList { len: 0, tables })
    }

    /// The number of items.
    pub fn len(&self) -> usize
        ensures { result ≡ length self.now }
    {
        self.len
    }

    /// The item at a place.
    #[inline(always)]
    pub fn get(&self, place: usize) -> &C
        requires place { place < length self.now }
        ensures item { (d : C) → slice_index_or self.now place d ≡ result.now }
    {
        item_at(&self.tables, place)
    }

    /// Where its items are allocated.
    pub(crate) fn allocator(&self) -> Global {
        *self.tables.allocator()
    }

    /// The tables of the items, to be read again and again. Behind the items whatever stands there is of no account.
    #[inline(always)]
    pub(crate) fn tables(&self) -> &[Arc<Table<C>>]
        ensures items { take (length self.now) (items_of result.now) ≡ self.now }
        ensures room { length self.now ≤ length result.now * 256 }
    {
        &self.tables
    }

    /// The same list once more: it costs a counter for each 256 items.
    pub fn share(&self) -> Result<SharedList<C>, AllocError>
        ensures { IfOk result (λ shared. shared ≡ self.now) }
    {
        let tables = self.tables.clone()?;
        Ok(SharedList {
            len: self.len,
            tables,
        })
    }

    /// Replaces the item at a place. The one error is want of memory, and the list is as it was.
    pub fn set(&mut self, place: usize, item: C) -> Result<(), AllocError>
        requires place { place < length self.old }
        ensures ok { OnOk result (self.new ≡ slice_set self.old place item) }
        ensures err { OnErr result (self.new ≡ self.old) }
    {
        let item = Arc::new(*self.tables.allocator(), item)?;
        put(&mut self.tables[place / ITEMS], place % ITEMS, item)
    }

    /// Adds an item at the end. The one error is want of memory, and the list is as it was.
    pub fn push(&mut self, item: C) -> Result<(), AllocError>
        requires room { length self.old < 2 ^ 63 }
        ensures ok { OnOk result (self.new ≡ self.old ++ item ∷ []) }
        ensures err { OnErr result (self.new ≡ self.old) }
    {
        let alloc = *self.tables.allocator();
        let item = Arc::new(alloc, item)?;
        lay(alloc, &mut self.tables, self.len, item)?;
        self.len += 1;
        Ok(())
    }
}
