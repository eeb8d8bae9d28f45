//! Texts that list nodes, or items made of nodes, of a network: `p aux sp WORD K` and K item lines.
ghost use Rattle.std.specs.Prelude.{◌≡◌, ◌≢◌, ◌∷◌, [], ℕ, List, Some, IfErr, IfSome, MatchOption, length, nat_lt, drop, true, false, IfOk, vec_items, ◌==◌};
ghost use Rattle.std.specs.List.{starts_with};
ghost use Rattle.std.specs.Str.{bytes_eq};
ghost use lib.Chars.{codes};
ghost use Rattle.dimacs.specs.Lines.{fields};
ghost use Rattle.dimacs.specs.Format.{Quantity};
ghost use Rattle.dimacs.specs.Faults.{Row, code_of};
ghost use Rattle.dimacs.specs.Content.{size_at};
ghost use Rattle.dimacs.specs.Taking.{Takes};
ghost use Rattle.dimacs.specs.Listed.{kind_words, listed, text_of_items, ReadsItem, HasItems};
ghost use Rattle.dimacs.specs.ListedReading.{count_after, count_of_numeral};
ghost use Rattle.dimacs.specs.Overflow.{code_after_fields};
ghost use Rattle.dimacs.specs.Texts.{EndsText, IsSaid, ReadsText, map_ok};
ghost use Rattle.dimacs.specs.Calling.{KeepsText};
ghost use Rattle.dimacs.specs.Counts.{CountsFailures};

use crate::fault::{Code, Fault};
use crate::graphs::reading::{other_kind, split_one};
use crate::lines::feed::Ended;
use crate::lines::line::{LineKind, kind_of, split_field};
use crate::lines::taking::TakeLines;
use crate::lines::text::Text;
use crate::numerals::numeral::Numeral;
use std::alloc::Global;
use std::marker::{Brand, PhantomData};

const MOST_ITEMS: u64 = 1 << 24;

/// The number of nodes, which is known apart from the text, and by which its lines are judged.
pub(crate) trait NodeCount {
    ghost nodes: { ℕ };
}

impl NodeCount for Brand {
    ghost nodes = { 0 };
}

/// An item made of nodes.
pub(crate) trait NodeItem: Copy {
    // the kind word after `aux sp`
    ghost word: { List ℕ };

    // what the numbers of an item line name
    ghost quantities: { List Quantity };

    // the item that they say
    ghost says: { Row → Self };

    // the first field of an item line
    ghost LETTER: { ℕ };

    /// The first field of an item line.
    const LETTER: u8;

    /// Whether a field is the kind word after `aux sp`.
    fn is_word(field: &[u8]) -> bool
        ensures { result ≡ bytes_eq word field.now };

    /// The item that the numbers of an item line say, or their fault. Nothing if they are no numerals, or if there are too many or too few.
    fn read(nodes: u32, numbers: &[u8]) -> Option<Result<Self, Code>>
        ensures item { ReadsItem (listed word LETTER quantities nodes) says (fields numbers.now) result }
        ensures reads_nothing { IfSome result (λ read. IfErr read (λ code. code ≢ Code.Read)) };

    ghost letter_is_no_mark: { (LETTER == 99) ≡ false };

    ghost letter_is_no_problem: { (LETTER == 112) ≡ false };

    // the sizes of the numbers tell the item
    ghost says_by_sizes: { (one other : Row) → ((k : ℕ) → size_at one k ≡ size_at other k) → says one ≡ says other };

    // the word is no longer than the words of texts, and the numbers are few
    ghost word_is_short: { nat_lt 16 (length word) ≡ false };

    ghost numbers_are_few: { nat_lt (length quantities) 12 ≡ true };
}

/// What follows the kind words: `aux sp` and the word of this item.
fn after_kind<I: NodeItem>(words: &[u8]) -> Option<&[u8]>
    ensures { MatchOption result (starts_with bytes_eq (fields words.now) (kind_words I.word) ≡ false)
        (λ counts. (starts_with bytes_eq (fields words.now) (kind_words I.word) ≡ true) × (drop 3 (fields words.now) ≡ fields counts.now)) }
{
    let Some((b"aux", rest)) = split_field(words) else {
        return None;
    };
    let Some((b"sp", rest)) = split_field(rest) else {
        return None;
    };
    match split_field(rest) {
        Some((word, counts)) if I::is_word(word) => Some(counts),
        _ => None,
    }
}

fn announced(count: Numeral) -> Result<u32, Code>
    ensures reads_nothing { IfErr result (λ code. code ≢ Code.Read) }
    ensures value { result ≡ count_of_numeral count }
{
    if count.is_unreadable() || count.is_under(0) {
        return Err(Code::NumberRange);
    }
    if count.is_over(MOST_ITEMS) {
        return Err(Code::TooLarge);
    }
    Ok(count.size as u32)
}

/// How many items a problem line announces, given the words after `p`.
fn count<I: NodeItem>(has_problem: bool, words: &[u8]) -> Result<u32, Code>
    ensures reads_nothing { IfErr result (λ code. code ≢ Code.Read) }
    ensures value { result ≡ count_after I.word has_problem (fields words.now) }
{
    match after_kind::<I>(words) {
        None => other_kind(has_problem),
        Some(counts) => {
            let Some(count) = split_one(counts) else {
                return Err(Code::BadLine);
            };
            if has_problem {
                return Err(Code::SecondProblemLine);
            }
            announced(count)
        }
    }
}

/// What the lines so far have given.
#[derive(Drop)]
pub(crate) struct NodeLines<I, K> {
    nodes: u32,
    count: Option<u32>,
    items: Vec<I>,
    of: PhantomData<K>,
}

impl<I: NodeItem, K: NodeCount> NodeLines<I, K> {
    fn new(alloc: Global, nodes: u32) -> Self
        requires { nodes ≡ K.nodes }
        ensures { HasItems (listed I.word I.LETTER I.quantities K.nodes) I.says [] result.nodes result.count result.items.items }
    {
        NodeLines {
            nodes,
            count: None,
            items: Vec::new(alloc),
            of: PhantomData,
        }
    }

    fn take_problem(&mut self, words: &[u8]) -> Result<(), Code>
        ensures reads_nothing { IfErr result (λ code. code ≢ Code.Read) }
        ensures takes { (earlier : List Row)
            → HasItems (listed I.word I.LETTER I.quantities K.nodes) I.says earlier self.old.nodes self.old.count self.old.items.items
            → Takes (code_of (listed I.word I.LETTER I.quantities K.nodes))
            (λ rows (r : NodeLines I K). HasItems (listed I.word I.LETTER I.quantities K.nodes) I.says rows r.nodes r.count r.items.items)
            earlier (codes "p" ∷ fields words.now) self.new result }
    {
        self.count = Some(count::<I>(self.count.is_some(), words)?);
        Ok(())
    }

    fn take_item(&mut self, numbers: &[u8]) -> Result<(), Code>
        ensures reads_nothing { IfErr result (λ code. code ≢ Code.Read) }
        ensures takes { (earlier : List Row)
            → HasItems (listed I.word I.LETTER I.quantities K.nodes) I.says earlier self.old.nodes self.old.count self.old.items.items
            → Takes (code_of (listed I.word I.LETTER I.quantities K.nodes))
            (λ rows (r : NodeLines I K). HasItems (listed I.word I.LETTER I.quantities K.nodes) I.says rows r.nodes r.count r.items.items)
            earlier ((I.LETTER ∷ []) ∷ fields numbers.now) self.new result }
    {
        let Some(read) = I::read(self.nodes, numbers) else {
            return Err(Code::BadLine);
        };
        let Some(count) = self.count else {
            return Err(Code::NoProblemLine);
        };
        let item = read?;
        if count as usize <= self.items.len() {
            return Err(Code::LineCount);
        }
        match self.items.push(item) {
            Ok(()) => Ok(()),
            Err(_) => Err(Code::OutOfMemory),
        }
    }
}

impl<I: NodeItem, K: NodeCount> TakeLines for NodeLines<I, K> {
    ghost use Rattle.std.specs.Prelude.{refl};

    ghost judge = { code_of (listed I.word I.LETTER I.quantities K.nodes) };

    ghost has_taken = { λ rows r. HasItems (listed I.word I.LETTER I.quantities K.nodes) I.says rows r.nodes r.count r.items.items };

    ghost COMMENT = { 99 };

    ghost code_of_overflow = { code_after_fields (listed I.word I.LETTER I.quantities K.nodes) };

    const COMMENT: u8 = b'c';

    fn take_line(&mut self, line: &[u8]) -> Result<(), Code> {
        match kind_of(line, I::LETTER) {
            LineKind::Ignored => Ok(()),
            LineKind::Problem(words) => self.take_problem(words),
            LineKind::Item(numbers) => self.take_item(numbers),
            LineKind::Unknown => Err(Code::BadLine),
        }
    }

    fn pass_comment(&mut self) {}

    fn overflow_decides(&self) {}

    fn same_is_taken(&self) {}

    ghost run_is_no_comment = { refl };

    ghost return_is_no_comment = { refl };

    ghost blank_is_no_comment = { refl };
}

/// The items of the lines that were taken, or the fault at their end.
fn items_at_end<I: NodeItem, K: NodeCount>(ended: Ended<NodeLines<I, K>>) -> Result<Vec<I>, Fault>
    ensures reads_nothing { IfErr result (λ fault. fault.code ≢ Code.Read) }
    ensures ends { (lines : List Row)
        → HasItems (listed I.word I.LETTER I.quantities K.nodes) I.says lines ended.taker.nodes ended.taker.count ended.taker.items.items
        → ended.lines ≡ length lines
        → EndsText (text_of_items (listed I.word I.LETTER I.quantities K.nodes) I.says) lines (map_ok vec_items result) }
{
    let Ended {
        taker,
        lines,
        at_run: _,
    } = ended;
    let NodeLines {
        nodes: _,
        count,
        items,
        of: _,
    } = taker;
    let Some(count) = count else {
        return Err(Fault {
            line: lines,
            code: Code::NoProblemLine,
        });
    };
    if items.len() < count as usize {
        return Err(Fault {
            line: lines,
            code: Code::LineCount,
        });
    }
    Ok(items)
}

/// The items of a text for a network of so many nodes, in the order of their lines, or the text's first fault.
pub(crate) fn read_items<I: NodeItem, K: NodeCount, S: Text>(
    alloc: Global,
    text: &mut S,
    nodes: u32,
) -> Result<Vec<I>, Fault>
    requires { nodes ≡ K.nodes }
    ensures read { IfSome (S.bytes text.old)
        (λ bytes. ReadsText (text_of_items (listed I.word I.LETTER I.quantities K.nodes) I.says) bytes (S.source text.new) (map_ok vec_items result)) }
    ensures said { IfOk result (λ items. IsSaid (text_of_items (listed I.word I.LETTER I.quantities K.nodes) I.says) items.items) }
    ensures counts { KeepsText CountsFailures S.Text result text.old text.new }
{
    let ended = text.give_lines(alloc, NodeLines::<I, K>::new(alloc, nodes))?;
    items_at_end(ended)
}
