ghost use Rattle.std.specs.Prelude.{◌≡◌, length};

use std::sync::Arc;

/// 256 items, each behind a counter. Where a list ends in it, whatever stands behind its end is of no account.
#[derive(Drop)]
pub(crate) struct Table<C> {
    pub(crate) items: [Arc<C>; 256],
    ghost full: { length items ≡ 256 },
}
