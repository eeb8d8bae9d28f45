ghost use Rattle.std.specs.Prelude.{◌≡◌, ◌≤◌, length, take};

use crate::lists::SharedList;
use crate::pieces::{CHUNK, Piece};
use crate::table::Table;
use crate::tables::item_at;
use std::alloc::{AllocError, Global};
use std::marker::Model;
use std::sync::Arc;

/// The words of one chunk. Where the array ends in it, whatever stands behind its end is of no account.
#[derive(Clone, Copy, Drop)]
pub(crate) struct WordChunk {
    pub(crate) words: [u32; 1024],
    ghost full: { length words ≡ 1024 },
}

/// A chunk that begins with these words.
fn beginning(words: &[u32]) -> WordChunk
    requires { length words.now ≤ 1024 }
    ensures { take (length words.now) result.words ≡ words.now }
{
    let mut all = [0; 1024];
    for place in 0..words.len() {
        all[place] = words[place];
    }
    WordChunk { words: all }
}

impl Piece for WordChunk {
    type Item = u32;

    ghost items = { λ chunk. chunk.words };

    ghost full = { λ chunk. chunk.full };

    fn put(piece: &mut Arc<WordChunk>, place: usize, item: u32) -> Result<(), AllocError> {
        Arc::make_mut(piece)?.words[place] = item;
        Ok(())
    }
}

/// Words of 4 bytes in chunks of 1,024, which versions of them share, as those of a `ChunkedArray` do.
#[derive(Drop)]
pub struct ChunkedWords {
    len: usize,
    chunks: SharedList<WordChunk>,
}

impl Model for ChunkedWords {
    ghost use Rattle.std.specs.Prelude.{ℕ, ◌≡◌, ◌+◌, ◌/◌, List, take, length, flat_map};

    ghost Value = { List ℕ };

    ghost view = { λ a. take a.len (flat_map (λ chunk. chunk.words) a.chunks) };

    ghost invariant = { λ a. length a.chunks ≡ (a.len + 1023) / 1024 };
}

/// Chunked words as they are read again and again.
#[derive(Drop)]
pub struct WordTable<'a> {
    len: usize,
    tables: &'a [Arc<Table<WordChunk>>],
}

impl<'a> Model for WordTable<'a> {
    ghost use Rattle.std.specs.Prelude.{ℕ, ◌≤◌, ◌*◌, List, take, length, flat_map};
    ghost use Rattle.chunked.specs.Tables.{items_of};

    ghost Value = { List ℕ };

    ghost view = { λ a. take a.len (flat_map (λ chunk. chunk.words) (items_of a.tables.now)) };

    ghost invariant = { λ a. a.len ≤ length a.tables.now * 262144 };
}

impl WordTable<'_> {
    ghost use Rattle.std.specs.Prelude.{◌≡◌, ◌<◌, ℕ, length, slice_index_or};

    /// The number of words.
    #[inline(always)]
    pub fn len(&self) -> usize
        ensures { result ≡ length self.now }
    {
        self.len
    }

    /// The word at a place.
    #[inline(always)]
    pub fn get(&self, place: usize) -> u32
        requires place { place < length self.now }
        ensures word { (d : ℕ) → slice_index_or self.now place d ≡ result }
    {
        item_at(self.tables, place / CHUNK).words[place % CHUNK]
    }
}

impl ChunkedWords {
    ghost use Rattle.std.specs.Prelude.{◌≡◌, ◌≤◌, ◌<◌, ◌%◌, ◌^◌, ◌++◌, ℕ, [], length, IfOk, OnOk, OnErr, slice_index_or, slice_set};

    /// No words, with room for so many.
    pub fn with_capacity(alloc: Global, count: usize) -> Result<ChunkedWords, AllocError>
        ensures { IfOk result (λ words. words ≡ []) }
    {
        let chunks = SharedList::with_capacity(alloc, count.div_ceil(CHUNK))?;
        Ok(ChunkedWords { len: 0, chunks })
    }

    /// The number of words.
    pub fn len(&self) -> usize
        ensures { result ≡ length self.now }
    {
        self.len
    }

    /// The words, to be read again and again.
    #[inline(always)]
    pub fn table(&self) -> WordTable<'_>
        ensures { result ≡ self.now }
    {
        WordTable {
            len: self.len,
            tables: self.chunks.tables(),
        }
    }

    /// The word at a place.
    #[inline(always)]
    pub fn get(&self, place: usize) -> u32
        requires place { place < length self.now }
        ensures word { (d : ℕ) → slice_index_or self.now place d ≡ result }
    {
        self.chunks.get(place / CHUNK).words[place % CHUNK]
    }

    /// The same words once more: it costs a counter for each 256 chunks.
    pub fn share(&self) -> Result<ChunkedWords, AllocError>
        ensures { IfOk result (λ shared. shared ≡ self.now) }
    {
        let chunks = self.chunks.share()?;
        Ok(ChunkedWords {
            len: self.len,
            chunks,
        })
    }

    /// Replaces the word at a place: in place, where nobody else has its chunk, else in a copy. The one error is want of memory for that, and the words are as
    /// they were.
    pub fn set(&mut self, place: usize, word: u32) -> Result<(), AllocError>
        requires place { place < length self.old }
        ensures ok { OnOk result (self.new ≡ slice_set self.old place word) }
        ensures err { OnErr result (self.new ≡ self.old) }
    {
        self.chunks.put(place, word)
    }

    /// Adds the next words, 0 to 1,024, behind words that fill their chunks. The one error is want of memory, and the words are as they were.
    pub fn append(&mut self, words: &[u32]) -> Result<(), AllocError>
        requires whole { length self.old % 1024 ≡ 0 }
        requires room { length self.old < 2 ^ 48 }
        requires few { length words.now ≤ 1024 }
        ensures ok { OnOk result (self.new ≡ self.old ++ words.now) }
        ensures err { OnErr result (self.new ≡ self.old) }
    {
        if words.is_empty() {
            return Ok(());
        }
        self.chunks.push(beginning(words))?;
        self.len += words.len();
        Ok(())
    }
}
