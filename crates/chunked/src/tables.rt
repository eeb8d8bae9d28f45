//! Items in tables of 256, which versions of a list share.

ghost use Rattle.std.specs.Prelude.{◌≡◌, ◌≤◌, ◌<◌, ◌+◌, ◌*◌, ◌++◌, [], ◌∷◌, length, IfOk, OnOk, OnErr, replicate, take, slice_index_or, slice_set};
ghost use Rattle.chunked.specs.Tables.{table_items, items_of};

use crate::table::Table;
use std::alloc::{AllocError, Global};
use std::sync::Arc;

/// How many items a table has.
pub(crate) const ITEMS: usize = 256;

impl<C: Drop> Table<C> {
    /// A table of shares of one item.
    fn filled(alloc: Global, item: &Arc<C>) -> Result<Table<C>, AllocError>
        ensures { IfOk result (λ table. table_items table ≡ replicate 256 item.now.value) }
    {
        let mut items = Vec::with_capacity(alloc, ITEMS)?;
        for _k in 0..ITEMS {
            items.push(item.clone()?)?;
        }
        match items.try_into() {
            Ok(items) => Ok(Table { items }),
            Err(_) => unreachable!(),
        }
    }
}

impl<C: Drop> Clone for Table<C> {
    ghost is_clone = { λ table copy. table_items copy ≡ table_items table };

    fn clone(&self) -> Result<Table<C>, AllocError> {
        let items = self.items.clone()?;
        Ok(Table { items })
    }
}

/// The k-th item of these tables, counted from 0.
#[inline(always)]
pub(crate) fn item_at<C: Drop>(tables: &[Arc<Table<C>>], k: usize) -> &C
    requires k { k < length tables.now * 256 }
    ensures { (d : C) → slice_index_or (items_of tables.now) k d ≡ result.now }
{
    &tables[k / ITEMS].items[k % ITEMS]
}

/// Replaces an item of a table: in place, where nobody else has the table, else in a copy of it.
pub(crate) fn put<C: Drop>(
    table: &mut Arc<Table<C>>,
    k: usize,
    item: Arc<C>,
) -> Result<(), AllocError>
    requires k { k < 256 }
    ensures ok { OnOk result (table_items table.new.value ≡ slice_set (table_items table.old.value) k item.value) }
    ensures err { OnErr result (table_items table.new.value ≡ table_items table.old.value) }
{
    Arc::make_mut(table)?.items[k] = item;
    Ok(())
}

/// Lays an item behind the first k ones of these tables.
pub(crate) fn lay<C: Drop>(
    alloc: Global,
    tables: &mut Vec<Arc<Table<C>>>,
    k: usize,
    item: Arc<C>,
) -> Result<(), AllocError>
    requires k { k ≤ length tables.old.items * 256 }
    ensures ok { OnOk result (take (k + 1) (items_of tables.new.items) ≡ take k (items_of tables.old.items) ++ item.value ∷ []) }
    ensures room { OnOk result (k + 1 ≤ length tables.new.items * 256) }
    ensures err { OnErr result (items_of tables.new.items ≡ items_of tables.old.items) }
    ensures kept { OnErr result (length tables.new.items ≡ length tables.old.items) }
{
    if k / ITEMS < tables.len() {
        return put(&mut tables[k / ITEMS], k % ITEMS, item);
    }
    let table = Arc::new(alloc, Table::filled(alloc, &item)?)?;
    tables.push(table)?;
    Ok(())
}
