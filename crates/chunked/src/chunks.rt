ghost use Rattle.std.specs.Prelude.{◌≡◌, ◌≤◌, ◌<◌, length, IfOk, replicate, take};

use crate::pieces::{CHUNK, Piece};
use std::alloc::{AllocError, Global};
use std::sync::Arc;

/// The items of one chunk. Where the array ends in it, whatever stands behind its end is of no account.
#[derive(Drop)]
pub(crate) struct Chunk<T> {
    pub(crate) items: Vec<T>,
    ghost full: { length items.items ≡ 1024 },
}

impl<T: Copy + Drop> Chunk<T> {
    /// A chunk of copies of one value.
    pub(crate) fn filled(alloc: Global, value: T) -> Result<Chunk<T>, AllocError>
        ensures { IfOk result (λ chunk. chunk.items.items ≡ replicate 1024 value) }
    {
        let mut items = Vec::with_capacity(alloc, CHUNK)?;
        items.resize(CHUNK, value)?;
        Ok(Chunk { items })
    }

    /// A chunk that begins with these items.
    pub(crate) fn beginning(alloc: Global, items: &[T]) -> Result<Chunk<T>, AllocError>
        requires some { 0 < length items.now }
        requires few { length items.now ≤ 1024 }
        ensures { IfOk result (λ chunk. take (length items.now) chunk.items.items ≡ items.now) }
    {
        let mut all = Vec::with_capacity(alloc, CHUNK)?;
        all.extend_from_slice(items)?;
        all.resize(CHUNK, items[0])?;
        Ok(Chunk { items: all })
    }
}

impl<T: Copy + Drop> Clone for Chunk<T> {
    ghost is_clone = { λ chunk copy. copy.items.items ≡ chunk.items.items };

    fn clone(&self) -> Result<Chunk<T>, AllocError> {
        let items = Vec::from_slice(*self.items.allocator(), &self.items)?;
        Ok(Chunk { items })
    }
}

impl<T: Copy + Drop> Piece for Chunk<T> {
    type Item = T;

    ghost items = { λ chunk. chunk.items.items };

    ghost full = { λ chunk. chunk.full };

    fn put(piece: &mut Arc<Chunk<T>>, place: usize, item: T) -> Result<(), AllocError> {
        Arc::make_mut(piece)?.items[place] = item;
        Ok(())
    }
}
