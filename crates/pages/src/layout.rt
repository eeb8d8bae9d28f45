ghost use Rattle.std.specs.Prelude.{◌≡◌, ◌-◌, ◌<◌, ◌≤◌};
ghost use Rattle.pages.specs.Layout.{Arcs, HeadOf, Words, EndsOf, Journal, arc_pages, word_pages, end_pages, slot_pages, page_number, page_count, journal_place_of, places_in_use};

use crate::content::Slot;
use crate::header::Header;

/// How many places an arc page has.
pub const ARCS_A_PAGE: usize = 511;

/// How many places a word page has.
pub const WORDS_A_PAGE: usize = 1023;

/// The most pages that are read or written at once.
pub const PAGES_AT_ONCE: usize = 64;

/// Page numbers of the file that has this header. The header itself is page 0.
impl Header {
    /// How many pages hold the ends of the arcs that the store was created with.
    pub fn arc_pages(&self) -> u64
        ensures { result ≡ arc_pages self.now }
    {
        u64::from(self.arcs).div_ceil(ARCS_A_PAGE as u64)
    }

    /// How many pages hold the words of the arcs, in each slot.
    pub fn word_pages(&self) -> u64
        ensures { result ≡ word_pages self.now }
    {
        u64::from(self.room).div_ceil(WORDS_A_PAGE as u64)
    }

    /// How many pages hold, in each slot, the ends of the arcs laid since the store was created.
    pub fn end_pages(&self) -> u64
        ensures { result ≡ end_pages self.now }
    {
        u64::from(self.room.saturating_sub(self.arcs)).div_ceil(ARCS_A_PAGE as u64)
    }

    /// How many pages follow a slot's head.
    pub fn slot_pages(&self) -> u64
        ensures { result ≡ slot_pages self.now }
    {
        self.word_pages() + self.end_pages()
    }

    /// The number of the `i`-th arc page, counted from 0.
    pub fn arc_page(&self, i: u64) -> u64
        requires { i < arc_pages self.now }
        ensures { result ≡ page_number self.now (Arcs i) }
    {
        1 + i
    }

    /// The number of the page of a slot's head.
    pub fn head_page(&self, slot: Slot) -> u64
        ensures { result ≡ page_number self.now (HeadOf slot) }
    {
        match slot {
            Slot::A => self.arc_pages() + 1,
            Slot::B => self.arc_pages() + self.slot_pages() + 2,
        }
    }

    /// The number of a slot's `i`-th word page, counted from 0.
    pub fn word_page(&self, slot: Slot, i: u64) -> u64
        requires { i < word_pages self.now }
        ensures { result ≡ page_number self.now (Words slot i) }
    {
        self.head_page(slot) + 1 + i
    }

    /// The number of a slot's `i`-th end page, counted from 0.
    pub fn end_page(&self, slot: Slot, i: u64) -> u64
        requires { i < end_pages self.now }
        ensures { result ≡ page_number self.now (EndsOf slot i) }
    {
        self.head_page(slot) + 1 + self.word_pages() + i
    }

    /// The number of the journal's first page.
    pub fn journal_start(&self) -> u64
        ensures { result ≡ page_number self.now (Journal 0) }
    {
        self.arc_pages() + 2 * self.slot_pages() + 3
    }

    /// The number of the journal's page of this sequence.
    pub fn journal_page(&self, sequence: u64) -> u64
        requires { 1 ≤ self.now.journal_pages }
        ensures { result ≡ page_number self.now (Journal (journal_place_of self.now sequence)) }
    {
        self.journal_start() + sequence % u64::from(self.journal_pages)
    }

    /// How many pages the file has.
    pub fn page_count(&self) -> u64
        ensures { result ≡ page_count self.now }
    {
        self.journal_start() + u64::from(self.journal_pages)
    }

    /// How many places of the `i`-th arc page, counted from 0, are in use.
    pub fn arcs_on_page(&self, i: u64) -> usize
        ensures { result ≡ places_in_use 511 i self.now.arcs }
    {
        places_in_use(ARCS_A_PAGE, i, self.arcs)
    }

    /// How many places of the `i`-th end page, counted from 0, are in use if there are so many arcs.
    pub fn ends_on_page(&self, i: u64, arcs: u32) -> usize
        ensures { result ≡ places_in_use 511 i (arcs - self.now.arcs) }
    {
        places_in_use(ARCS_A_PAGE, i, arcs.saturating_sub(self.arcs))
    }
}

/// How many places of the `i`-th word page, counted from 0, are in use if there are so many arcs.
pub fn words_on_page(i: u64, arcs: u32) -> usize
    ensures { result ≡ places_in_use 1023 i arcs }
{
    places_in_use(WORDS_A_PAGE, i, arcs)
}

/// How many of so many places are in use on the `i`-th page of so many items, counted from 0.
fn places_in_use(places: usize, i: u64, items: u32) -> usize
    requires { places ≤ 1023 }
    ensures { result ≡ places_in_use places i items }
{
    u64::from(items)
        .saturating_sub(i.saturating_mul(places as u64))
        .min(places as u64) as usize
}
