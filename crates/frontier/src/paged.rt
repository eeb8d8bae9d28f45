ghost use Rattle.std.specs.Prelude.{◌≡◌, ◌≢◌, ◌≤◌, ◌<◌, ◌*◌, ◌/◌, ◌%◌, ℕ, [], true, false, IfOk, OnOk, length, map, slice_index_or};
ghost use Rattle.frontier.specs.Flags.{flag_at};

use std::alloc::{AllocError, Global};

/// How many flags a word has.
const WORD: usize = 64;

/// How many flags a page has.
const PAGE: usize = 32768;

/// A flag for each number below a limit, a bit each, in pages of 512 words. A page has its words only as far as a flag was put up. So few flags take little
/// memory and time, whatever the limit.
#[derive(Drop)]
pub(crate) struct PagedFlags {
    pub(crate) limit: usize,
    pub(crate) pages: Vec<Vec<u64>>,
    ghost room: { limit ≤ length pages.items * 32768 },
}

/// Words up to this place, of which those that are new are 0. The one error is want of memory.
fn grow(words: &mut Vec<u64>, place: usize) -> Result<(), AllocError>
    ensures words { (k : ℕ) → slice_index_or words.new.items k 0 ≡ slice_index_or words.old.items k 0 }
    ensures room { OnOk result (place < length words.new.items) }
{
    while words.len() <= place {
        words.push(0)?;
    }
    Ok(())
}

impl PagedFlags {
    /// Flags that are all down.
    pub(crate) fn new(alloc: Global, limit: usize) -> Result<PagedFlags, AllocError>
        ensures limit { IfOk result (λ flags. flags.limit ≡ limit) }
        ensures down { IfOk result (λ flags. (u : ℕ) → flag_at (map (λ page. page.items) flags.pages.items) u ≡ false) }
    {
        let count = limit.div_ceil(PAGE);
        let mut pages = Vec::with_capacity(alloc, count)?;
        while pages.len() < count {
            pages.push(Vec::new(alloc))?;
        }
        Ok(PagedFlags { limit, pages })
    }

    /// Whether the flag of a number is up.
    #[inline(always)]
    pub(crate) fn is_up(&self, number: usize) -> bool
        requires within { number < length self.now.pages.items * 32768 }
        ensures { result ≡ flag_at (map (λ page. page.items) self.now.pages.items) number }
    {
        match self.pages[number / PAGE].get(number % PAGE / WORD) {
            Some(word) => (word >> (number % WORD)) & 1 == 1,
            None => false,
        }
    }

    /// Makes room for the flag of a number. The one error is want of memory.
    #[inline(always)]
    pub(crate) fn make_room(&mut self, number: usize) -> Result<(), AllocError>
        requires within { number < length self.old.pages.items * 32768 }
        ensures flags { (u : ℕ) → flag_at (map (λ page. page.items) self.new.pages.items) u ≡ flag_at (map (λ page. page.items) self.old.pages.items) u }
        ensures room { OnOk result (number % 32768 / 64 < length (slice_index_or (map (λ page. page.items) self.new.pages.items) (number / 32768) [])) }
        ensures size { length self.new.pages.items ≡ length self.old.pages.items }
        ensures limit { self.new.limit ≡ self.old.limit }
    {
        let words = &mut self.pages[number / PAGE];
        let place = number % PAGE / WORD;
        if place < words.len() {
            return Ok(());
        }
        grow(words, place)
    }

    /// Puts the flag of a number up.
    #[inline(always)]
    pub(crate) fn raise(&mut self, number: usize)
        requires within { number < length self.old.pages.items * 32768 }
        requires room { number % 32768 / 64 < length (slice_index_or (map (λ page. page.items) self.old.pages.items) (number / 32768) []) }
        ensures up { flag_at (map (λ page. page.items) self.new.pages.items) number ≡ true }
        ensures others { (u : ℕ) → u ≢ number → flag_at (map (λ page. page.items) self.new.pages.items) u ≡ flag_at (map (λ page. page.items) self.old.pages.items) u }
        ensures size { length self.new.pages.items ≡ length self.old.pages.items }
        ensures limit { self.new.limit ≡ self.old.limit }
    {
        self.pages[number / PAGE][number % PAGE / WORD] |= 1 << (number % WORD);
    }

    /// Puts the flag of a number down.
    #[inline(always)]
    pub(crate) fn lower(&mut self, number: usize)
        requires within { number < length self.old.pages.items * 32768 }
        requires room { number % 32768 / 64 < length (slice_index_or (map (λ page. page.items) self.old.pages.items) (number / 32768) []) }
        ensures down { flag_at (map (λ page. page.items) self.new.pages.items) number ≡ false }
        ensures others { (u : ℕ) → u ≢ number → flag_at (map (λ page. page.items) self.new.pages.items) u ≡ flag_at (map (λ page. page.items) self.old.pages.items) u }
        ensures size { length self.new.pages.items ≡ length self.old.pages.items }
        ensures limit { self.new.limit ≡ self.old.limit }
    {
        self.pages[number / PAGE][number % PAGE / WORD] &= !(1 << (number % WORD));
    }
}
