//! How a row is kept.

ghost use Rattle.std.specs.Prelude.{◌≡◌, ◌<◌, map, IfOk, IfSome, IsSome};
ghost use Rattle.roadnet.specs.Walks.{distance_at};
ghost use Rattle.deltastep.specs.Words.{distance_of_short, distance_of_word, distances_of, no_short_walk};

use crate::rows::distances::NO_WALK;
use chunked::{CHUNK, ChunkedWords};
use std::alloc::Global;

/// The word of 4 bytes that means "no walk leads there".
const NO_SHORT_WALK: u32 = u32::MAX;

/// No network has more nodes.
const MOST_NODES: usize = u32::MAX as usize;

/// The words of a row, one for each node: of 4 bytes if each least length is below 2^32 - 1, otherwise of 8.
#[derive(Drop)]
pub(crate) enum Words {
    Short(ChunkedWords),
    Long(Vec<u64>),
}

impl Words {
    /// The distances of these words, in words of 4 bytes if they fit and there is memory.
    pub(crate) fn new(words: Vec<u64>) -> Words
        ensures { distances_of result ≡ map distance_of_word words.items }
    {
        match in_chunks(*words.allocator(), &words) {
            Some(short) => Words::Short(short),
            None => Words::Long(words),
        }
    }

    /// What the words say of a node: nothing if no walk leads there, or if there is no such node.
    pub(crate) fn get(&self, node: u64) -> Option<u64>
        ensures { result ≡ distance_at (distances_of self.now) node }
    {
        match self {
            Words::Short(words) => short_at(words, node),
            Words::Long(words) => long_at(words, node),
        }
    }

    /// The words of 4 bytes, if the row is kept in such words.
    pub(crate) fn short(&self) -> Option<&ChunkedWords>
        ensures { IfSome result (λ words. distances_of self.now ≡ map distance_of_short words.now) }
    {
        match self {
            Words::Short(words) => Some(words),
            Words::Long(_words) => None,
        }
    }
}

/// What words of 4 bytes say of a node.
fn short_at(words: &ChunkedWords, node: u64) -> Option<u64>
    ensures { result ≡ distance_at (map distance_of_short words.now) node }
{
    if node == 0 || node > words.len() as u64 {
        return None;
    }
    let word = words.get((node - 1) as usize);
    if word == NO_SHORT_WALK {
        return None;
    }
    Some(u64::from(word))
}

/// What words of 8 bytes say of a node.
fn long_at(words: &[u64], node: u64) -> Option<u64>
    ensures { result ≡ distance_at (map distance_of_word words.now) node }
{
    if node == 0 || node > words.len() as u64 {
        return None;
    }
    let word = words[(node - 1) as usize];
    if word == NO_WALK { None } else { Some(word) }
}

/// The word of 4 bytes that says the same as one of 8, if there is one.
fn short_of(word: u64) -> Option<u32>
    ensures same { IfSome result (λ short. distance_of_short short ≡ distance_of_word word) }
    ensures short { word < no_short_walk → IsSome result }
{
    if word == NO_WALK {
        return Some(NO_SHORT_WALK);
    }
    if word >= u64::from(NO_SHORT_WALK) {
        return None;
    }
    Some(word as u32)
}

/// Makes the list that of the words of 4 bytes that say the same as these, if they fit and there is memory.
fn shorten(short: &mut Vec<u32>, words: &[u64]) -> Option<()>
    ensures { IfSome result (λ _. map distance_of_short short.new.items ≡ map distance_of_word words.now) }
{
    short.clear();
    for word in words {
        if short.push(short_of(*word)?).is_err() {
            return None;
        }
    }
    Some(())
}

/// The same distances in chunks of words of 4 bytes, if they fit, there is memory, and they are no more than nodes can be. Beside the chunks it takes the memory
/// of one.
fn in_chunks(alloc: Global, words: &[u64]) -> Option<ChunkedWords>
    ensures { IfSome result (λ short. map distance_of_short short ≡ map distance_of_word words.now) }
{
    if words.len() > MOST_NODES {
        return None;
    }
    let Ok(mut chunks) = ChunkedWords::with_capacity(alloc, words.len()) else {
        return None;
    };
    let Ok(mut short) = Vec::with_capacity(alloc, CHUNK.min(words.len())) else {
        return None;
    };
    for k in 0..words.len().div_ceil(CHUNK) {
        let from = k * CHUNK;
        let part = &words[from..from + CHUNK.min(words.len() - from)];
        shorten(&mut short, part)?;
        let Ok(()) = chunks.append(&short) else {
            return None;
        };
    }
    Some(chunks)
}
