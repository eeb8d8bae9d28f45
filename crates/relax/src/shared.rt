//! Tentative values in the words of a row.

use crate::known::Known;
use chunked::ChunkedWords;
use std::alloc::AllocError;
use std::marker::Model;

/// The word of 4 bytes that means "no value".
const NO_SHORT_VALUE: u32 = u32::MAX;

/// For each node of a network the least length of a walk that a search has found so far, or nothing, in words of 4 bytes. They stand in chunks, which others
/// may share: a chunk is copied when a word of it is written first, so that it takes memory only for what is written.
#[derive(Drop)]
pub struct SharedTentative {
    words: ChunkedWords,
}

impl Model for SharedTentative {
    ghost use Rattle.std.specs.Prelude.{List, ◌∷◌, Option, None, ℕ, map};
    ghost use Rattle.relax.specs.Values.{value_of_short};

    ghost Value = { List (Option ℕ) };

    ghost view = { λ t. None ∷ map value_of_short t.words };
}

impl SharedTentative {
    ghost use Rattle.std.specs.Prelude.{◌≡◌, ◌≤◌, ◌<◌, ◌∷◌, Some, None, map, length, slice_set, OnOk, OnErr};
    ghost use Rattle.relax.specs.Values.{value_at, no_short_value, value_of_short};

    /// The values of these words, from node 1 on. 2^32 - 1 means no value. It takes no memory.
    pub fn from_words(words: ChunkedWords) -> SharedTentative
        ensures { result ≡ None ∷ map value_of_short words }
    {
        SharedTentative { words }
    }

    /// The value of a node, if it has one.
    #[inline(always)]
    pub fn get(&self, node: u32) -> Option<u64>
        requires node { (1 ≤ node) × (node < length self.now) }
        ensures value { result ≡ value_at self.now node }
    {
        let word = self.words.get(node as usize - 1);
        if word == NO_SHORT_VALUE {
            return None;
        }
        Some(u64::from(word))
    }

    /// Sets the value of a node, which is below 2^32 - 1. The one error is lack of memory for a chunk, and the values are as they were.
    pub fn set(&mut self, node: u32, value: u32) -> Result<(), AllocError>
        requires node { (1 ≤ node) × (node < length self.old) }
        requires value { value < no_short_value }
        ensures ok { OnOk result (self.new ≡ slice_set self.old node (Some value)) }
        ensures err { OnErr result (self.new ≡ self.old) }
    {
        self.words.set(node as usize - 1, value)
    }

    /// Removes a node's value. The one error is lack of memory for a chunk, and the values are as they were.
    pub fn clear(&mut self, node: u32) -> Result<(), AllocError>
        requires node { (1 ≤ node) × (node < length self.old) }
        ensures ok { OnOk result (self.new ≡ slice_set self.old node None) }
        ensures err { OnErr result (self.new ≡ self.old) }
    {
        self.words.set(node as usize - 1, NO_SHORT_VALUE)
    }

    /// The values as words, from node 1 on. 2^32 - 1 means no value.
    pub fn into_words(self) -> ChunkedWords
        ensures words { self ≡ None ∷ map value_of_short result }
    {
        self.words
    }
}

impl Known for SharedTentative {
    ghost values = { λ values. values };

    #[inline(always)]
    fn value(&self, node: u32) -> Option<u64> {
        self.get(node)
    }
}
