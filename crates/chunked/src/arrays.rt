ghost use Rattle.std.specs.Prelude.{◌≡◌};

use crate::chunks::Chunk;
use crate::lists::SharedList;
use crate::pieces::CHUNK;
use std::alloc::{AllocError, Global};
use std::marker::Model;

/// An array in chunks of 1,024 items, which its versions share, as the items of a `SharedList`. A change copies the one chunk that it touches, unless nobody
/// else has it.
#[derive(Drop)]
pub struct ChunkedArray<T> {
    len: usize,
    chunks: SharedList<Chunk<T>>,
}

impl<T> Model for ChunkedArray<T> {
    ghost use Rattle.std.specs.Prelude.{◌≡◌, ◌+◌, ◌/◌, List, take, length, flat_map};

    ghost Value = { List T };

    ghost view = { λ a. take a.len (flat_map (λ chunk. chunk.items.items) a.chunks) };

    ghost invariant = { λ a. length a.chunks ≡ (a.len + 1023) / 1024 };
}

impl<T: Copy + Drop> ChunkedArray<T> {
    ghost use Rattle.std.specs.Prelude.{◌≡◌, ◌≤◌, ◌<◌, ◌+◌, ◌%◌, ◌^◌, ◌++◌, [], ◌∷◌, length, IfOk, OnOk, OnErr, slice_index_or, slice_set};
    ghost use Rattle.chunked.specs.Chunks.{chunk_of, chunk_count};

    /// These items.
    pub fn from_slice(alloc: Global, items: &[T]) -> Result<ChunkedArray<T>, AllocError>
        ensures { IfOk result (λ array. array ≡ items.now) }
    {
        let chunks = SharedList::with_capacity(alloc, items.len().div_ceil(CHUNK))?;
        let mut array = ChunkedArray { len: 0, chunks };
        for k in 0..items.len().div_ceil(CHUNK) {
            let from = k * CHUNK;
            array.append(alloc, &items[from..from + CHUNK.min(items.len() - from)])?;
        }
        Ok(array)
    }

    /// Adds the next items, 0 to 1,024, behind items that fill their chunks. The one error is want of memory, and the array is as it was.
    fn append(&mut self, alloc: Global, items: &[T]) -> Result<(), AllocError>
        requires whole { length self.old % 1024 ≡ 0 }
        requires room { length self.old + length items.now < 2 ^ 64 }
        requires some { 0 < length items.now }
        requires few { length items.now ≤ 1024 }
        ensures ok { OnOk result (self.new ≡ self.old ++ items.now) }
        ensures err { OnErr result (self.new ≡ self.old) }
    {
        self.chunks.push(Chunk::beginning(alloc, items)?)?;
        self.len += items.len();
        Ok(())
    }

    /// The number of items.
    pub fn len(&self) -> usize
        ensures { result ≡ length self.now }
    {
        self.len
    }

    /// The item at a place.
    pub fn get(&self, place: usize) -> &T
        requires place { place < length self.now }
        ensures item { (d : T) → slice_index_or self.now place d ≡ result.now }
    {
        &self.chunks.get(place / CHUNK).items[place % CHUNK]
    }

    /// How many chunks the items take.
    pub fn chunk_count(&self) -> usize
        ensures { result ≡ chunk_count self.now }
    {
        self.len.div_ceil(CHUNK)
    }

    /// The items of the k-th chunk, counted from 0; none past the last one.
    pub fn chunk(&self, k: usize) -> &[T]
        ensures { result.now ≡ chunk_of self.now k }
    {
        if k >= self.len.div_ceil(CHUNK) {
            return &[];
        }
        &self.chunks.get(k).items[..CHUNK.min(self.len - k * CHUNK)]
    }

    /// The same array once more: it costs a counter for each 256 chunks.
    pub fn share(&self) -> Result<ChunkedArray<T>, AllocError>
        ensures { IfOk result (λ shared. shared ≡ self.now) }
    {
        let chunks = self.chunks.share()?;
        Ok(ChunkedArray {
            len: self.len,
            chunks,
        })
    }

    /// Replaces the item at a place: in place, where nobody else has its chunk, else in a copy. The one error is want of memory for that, and the array is as
    /// it was.
    pub fn set(&mut self, place: usize, value: T) -> Result<(), AllocError>
        requires place { place < length self.old }
        ensures ok { OnOk result (self.new ≡ slice_set self.old place value) }
        ensures err { OnErr result (self.new ≡ self.old) }
    {
        self.chunks.put(place, value)
    }

    /// Adds an item at the end. The one error is want of memory, and the array is as it was.
    pub fn push(&mut self, value: T) -> Result<(), AllocError>
        requires room { length self.old < 2 ^ 48 }
        ensures ok { OnOk result (self.new ≡ self.old ++ value ∷ []) }
        ensures err { OnErr result (self.new ≡ self.old) }
    {
        let place = self.len;
        if place % CHUNK == 0 {
            let alloc = self.chunks.allocator();
            self.chunks.push(Chunk::filled(alloc, value)?)?;
            self.len = place + 1;
            return Ok(());
        }
        self.chunks.put(place, value)?;
        self.len = place + 1;
        Ok(())
    }
}
