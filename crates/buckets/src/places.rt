//! Sets of places, as bits.

ghost use Rattle.std.specs.Prelude.{◌≡◌, ◌≢◌, ℕ, ◌+◌, ◌*◌, ◌/◌, ◌≤◌, ◌<◌, IfOk, MatchOption, length, slice_index};
ghost use Rattle.std.specs.Int.{bit_at};
ghost use Rattle.buckets.specs.Places.{place_bit, IsNext};

use std::alloc::{AllocError, Global};
use std::marker::Model;

/// The lowest bit of the word that is 1, from the given one on, if there is one.
fn next_bit(word: u64, from: u32) -> Option<u32>
    requires { from < 64 }
    ensures none { MatchOption result ((i : ℕ) → from ≤ i → bit_at word i ≡ 0) (λ bit. (bit < 64) × (from ≤ bit) × (bit_at word bit ≡ 1)) }
    ensures least { MatchOption result (Unit {0}) (λ bit. (i : ℕ) → from ≤ i → i < bit → bit_at word i ≡ 0) }
{
    let rest = word & (u64::MAX << from);
    if rest == 0 {
        return None;
    }
    Some(rest.trailing_zeros())
}

/// The least member from the given number on, in O(w) for w words.
fn next_in(words: &[u64], from: usize) -> Option<usize>
    requires { length words.now ≤ 67108864 }
    ensures { IsNext words.now from result }
{
    let first = from / 64;
    if first >= words.len() {
        return None;
    }
    if let Some(bit) = next_bit(words[first], (from % 64) as u32) {
        return Some(first * 64 + bit as usize);
    }
    for place in first + 1..words.len() {
        if let Some(bit) = next_bit(words[place], 0) {
            return Some(place * 64 + bit as usize);
        }
    }
    None
}

/// Adds a number to the set.
fn set_bit(words: &mut Vec<u64>, place: usize)
    requires { place / 64 < length words.old.items }
    ensures member { place_bit words.new.items place ≡ 1 }
    ensures others { (k : ℕ) → k ≢ place → place_bit words.new.items k ≡ place_bit words.old.items k }
    ensures words { (w : ℕ) → w ≢ place / 64 → slice_index words.new.items w ≡ slice_index words.old.items w }
    ensures len { length words.new.items ≡ length words.old.items }
{
    words[place / 64] |= 1 << (place % 64);
}

/// Removes a number from the set.
fn clear_bit(words: &mut Vec<u64>, place: usize)
    requires { place / 64 < length words.old.items }
    ensures member { place_bit words.new.items place ≡ 0 }
    ensures others { (k : ℕ) → k ≢ place → place_bit words.new.items k ≡ place_bit words.old.items k }
    ensures words { (w : ℕ) → w ≢ place / 64 → slice_index words.new.items w ≡ slice_index words.old.items w }
    ensures less { slice_index words.new.items (place / 64) ≤ slice_index words.old.items (place / 64) }
    ensures len { length words.new.items ≡ length words.old.items }
{
    words[place / 64] &= !(1 << (place % 64));
}

/// A set of numbers below a limit, as bits in two levels: one bit for each number, 64 of them in a word, and a summary with one bit for each word, which is
/// 1 if the word is not 0. It takes 1 bit a number, and 1 bit for 64 numbers.
#[derive(Drop)]
pub struct Places {
    words: Vec<u64>,
    summary: Vec<u64>,
}

impl Model for Places {
    ghost use Rattle.std.specs.Prelude.{List, ℕ};
    ghost use Rattle.buckets.specs.Places.{IsSummary};

    ghost Value = { List ℕ };

    ghost view = { λ p. p.words.items };

    ghost invariant = { λ p. IsSummary p.words.items p.summary.items };
}

impl Places {
    ghost use Rattle.std.specs.Prelude.{◌≡◌, ◌≢◌, ℕ, ◌+◌, ◌*◌, ◌/◌, ◌≤◌, ◌<◌, ◌↔◌, IsTrue, IfOk, length};
    ghost use Rattle.buckets.specs.Places.{place_bit, IsNext};

    /// The empty set, for numbers below the limit. The only error is lack of memory.
    pub fn new(alloc: Global, limit: u32) -> Result<Places, AllocError>
        ensures none { IfOk result (λ places. (k : ℕ) → place_bit places k ≡ 0) }
        ensures limit { IfOk result (λ places. limit ≤ 64 * length places) }
    {
        let words = vec![in alloc; 0u64; limit.div_ceil(64) as usize]?;
        let summary = vec![in alloc; 0u64; words.len().div_ceil(64)]?;
        Ok(Places { words, summary })
    }

    /// Adds a number to the set, in O(1).
    pub fn insert(&mut self, place: usize)
        requires { place < 64 * length self.old }
        ensures member { place_bit self.new place ≡ 1 }
        ensures others { (k : ℕ) → k ≢ place → place_bit self.new k ≡ place_bit self.old k }
        ensures limit { length self.new ≡ length self.old }
    {
        set_bit(&mut self.words, place);
        set_bit(&mut self.summary, place / 64);
    }

    /// Removes a number from the set, in O(1).
    pub fn remove(&mut self, place: usize)
        requires { place < 64 * length self.old }
        ensures member { place_bit self.new place ≡ 0 }
        ensures others { (k : ℕ) → k ≢ place → place_bit self.new k ≡ place_bit self.old k }
        ensures limit { length self.new ≡ length self.old }
    {
        clear_bit(&mut self.words, place);
        if self.words[place / 64] == 0 {
            clear_bit(&mut self.summary, place / 64);
        }
    }

    /// Adds a number to the set, or removes it, in O(1).
    pub fn set(&mut self, place: usize, member: bool)
        requires { place < 64 * length self.old }
        ensures member { (place_bit self.new place ≡ 1) ↔ IsTrue member }
        ensures others { (k : ℕ) → k ≢ place → place_bit self.new k ≡ place_bit self.old k }
        ensures limit { length self.new ≡ length self.old }
    {
        if member {
            self.insert(place);
        } else {
            self.remove(place);
        }
    }

    /// The least member from the given number on, in O(l / 4096) for the limit l.
    pub fn next(&self, from: usize) -> Option<usize>
        ensures { IsNext self.now from result }
    {
        let first = from / 64;
        if first >= self.words.len() {
            return None;
        }
        if let Some(bit) = next_bit(self.words[first], (from % 64) as u32) {
            return Some(first * 64 + bit as usize);
        }
        let place = next_in(&self.summary, first + 1)?;
        let bit = next_bit(self.words[place], 0)?;
        Some(place * 64 + bit as usize)
    }

    /// The least member, in O(l / 4096) for the limit l.
    #[inline(always)]
    pub fn first(&self) -> Option<usize>
        ensures { IsNext self.now 0 result }
    {
        let place = next_in(&self.summary, 0)?;
        let bit = next_bit(self.words[place], 0)?;
        Some(place * 64 + bit as usize)
    }
}
