ghost use Rattle.std.specs.Prelude.{◌≡◌, ◌+◌, ◌*◌, ◌<◌, ◌≤◌, ◌^◌, length, drop, map, ◌==◌, All, IfOk};
ghost use Rattle.std.specs.List.{list_all};
ghost use Rattle.pages.specs.Spelling.{Decodes, SpelledWords, word_page, word_of, number_of, page_of_numbers};
ghost use Rattle.pages.specs.Reading.{read_items, read_word};

use crate::content::Word;
use crate::writer::{PAGE_SIZE, PageWriter, are_zero};
use byteorder::{BigEndian, ByteOrder};
use roadnet::{OutOfMemory, RoadArc};
use std::alloc::{AllocError, Global};
use std::marker::Model;

const CLOSED: u32 = 1 << 31;

const WORD_SIZE: usize = 4;

/// The words of the arcs of a page, in the order of the arcs' numbers.
#[derive(Debug, Drop)]
pub struct WordPage {
    words: Vec<Word>,
}

impl Model for WordPage {
    ghost use Rattle.std.specs.Prelude.{List};
    ghost use Rattle.pages.specs.declared.content.Word.{Word};

    ghost Value = { List Word };

    ghost view = { λ p. p.words.items };
}

impl WordPage {
    /// The page's words, one for each arc in the order of the arcs' numbers: at most 1,023.
    pub fn words(&self) -> &[Word]
        ensures { result.now ≡ self.now }
    {
        &self.words
    }
}

/// The word of an arc as a number: the length, at most 2^31 - 1, and 2^31 more where the arc is closed.
pub fn word_number(arc: &RoadArc) -> u32
    requires { arc.now.length < 2 ^ 31 }
    ensures { result ≡ number_of (word_of arc.now) }
{
    if arc.opened {
        arc.length
    } else {
        arc.length + CLOSED
    }
}

/// The page of the words of these arcs, at most 1,023, none longer than 2^31 - 1.
pub fn encode_word_page(arcs: &[RoadArc]) -> [u8; PAGE_SIZE]
    requires count { length arcs.now ≤ 1023 }
    requires fits { All (λ arc. arc.length < 2 ^ 31) arcs.now }
    ensures { result ≡ word_page (map word_of arcs.now) }
{
    let mut page = PageWriter::new();
    for arc in arcs {
        page.put_u32(word_number(arc));
    }
    page.finish()
}

/// The page of these words, at most 1,023, each as a number.
pub fn encode_numbers(numbers: &[u32]) -> [u8; PAGE_SIZE]
    requires { length numbers.now ≤ 1023 }
    ensures { result ≡ page_of_numbers numbers.now }
{
    let mut page = PageWriter::new();
    for &number in numbers {
        page.put_u32(number);
    }
    page.finish()
}

fn read_word(bytes: &[u8]) -> Word
    requires { 4 ≤ length bytes.now }
    ensures { result ≡ read_word bytes.now }
{
    let number = BigEndian::read_u32(bytes);
    Word {
        length: number % CLOSED,
        opened: number < CLOSED,
    }
}

fn read_words(alloc: Global, bytes: &[u8], count: usize) -> Result<Vec<Word>, AllocError>
    requires { 4 * count ≤ length bytes.now }
    ensures { IfOk result (λ words. words.items ≡ read_items read_word 4 count bytes.now) }
{
    let mut words = Vec::with_capacity(alloc, count)?;
    let mut rest = bytes;
    for _ in 0..count {
        let (front, after) = rest.split_at(WORD_SIZE);
        words.push(read_word(front))?;
        rest = after;
    }
    Ok(words)
}

/// Whether everything after so many words is zero.
fn is_zero_behind(page: &[u8; PAGE_SIZE], count: usize) -> bool
    requires { count ≤ 1023 }
    ensures { result ≡ list_all (λ byte. byte == 0) (drop (4 * count) page.now) }
{
    are_zero(&page[WORD_SIZE * count..])
}

/// The words on the page, if so many places (at most 1,023) are in use. `None` if the page is not valid.
pub fn decode_word_page(
    alloc: Global,
    page: &[u8; PAGE_SIZE],
    count: usize,
) -> Result<Option<WordPage>, OutOfMemory>
    requires { count ≤ 1023 }
    ensures { IfOk result (λ found. Decodes (SpelledWords count page.now) found) }
{
    if !is_zero_behind(page, count) {
        return Ok(None);
    }
    let words = read_words(alloc, page, count)?;
    Ok(Some(WordPage { words }))
}
