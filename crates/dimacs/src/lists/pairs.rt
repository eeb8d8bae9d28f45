//! The texts of pairs of nodes.
ghost use Rattle.std.specs.Prelude.{◌≡◌, ◌≢◌, IfErr, IfSome, vec_items};
ghost use Rattle.dimacs.specs.Lines.{fields};

use crate::fault::{Code, Fault};
use crate::graphs::reading::split_two;
use crate::lines::text::Text;
use crate::lists::listed::{NodeItem, read_items};
use crate::numerals::numeral::Numeral;
use std::alloc::Global;
use std::marker::Brand;

/// Two nodes of a network, counted from 1: the source and the target.
#[derive(Clone, Copy, Debug, PartialEq, Eq)]
pub struct Pair {
    pub source: u32,
    pub target: u32,
}

impl Pair {
    ghost use Rattle.dimacs.specs.ListedReading.{pair_of_numerals};

    fn of_numerals(nodes: u32, source: Numeral, target: Numeral) -> Result<Pair, Code>
        ensures reads_nothing { IfErr result (λ code. code ≢ Code.Read) }
        ensures value { result ≡ pair_of_numerals nodes source target }
    {
        if source.is_unreadable() || target.is_unreadable() {
            return Err(Code::NumberRange);
        }
        let nodes = u64::from(nodes);
        if source.is_outside(1, nodes) || target.is_outside(1, nodes) {
            return Err(Code::NodeRange);
        }
        Ok(Pair {
            source: source.size as u32,
            target: target.size as u32,
        })
    }
}

ghost use Rattle.dimacs.specs.ListedReading.{pair_read};
ghost use Rattle.dimacs.specs.Reading.{two_numerals};

/// The pair that the numbers of an item line name, or their fault.
fn read_pair(nodes: u32, numbers: &[u8]) -> Option<Result<Pair, Code>>
    ensures reads_nothing { IfSome result (λ read. IfErr read (λ code. code ≢ Code.Read)) }
    ensures value { result ≡ pair_read nodes (two_numerals (fields numbers.now)) }
{
    let (source, target) = split_two(numbers)?;
    Some(Pair::of_numerals(nodes, source, target))
}

impl NodeItem for Pair {
    ghost use Rattle.std.specs.Prelude.{◌∷◌, [], refl};
    ghost use lib.Chars.{codes};
    ghost use Rattle.dimacs.specs.Format.{Node};
    ghost use Rattle.dimacs.specs.Pairs.{pair_from};

    ghost word = { codes "p2p" };

    ghost quantities = { Node ∷ Node ∷ [] };

    ghost says = { pair_from };

    ghost LETTER = { 113 };

    const LETTER: u8 = b'q';

    fn is_word(field: &[u8]) -> bool {
        field == b"p2p".as_slice()
    }

    fn read(nodes: u32, numbers: &[u8]) -> Option<Result<Pair, Code>> {
        read_pair(nodes, numbers)
    }

    ghost letter_is_no_mark = { refl };

    ghost letter_is_no_problem = { refl };

    ghost says_by_sizes = { λ one other same. λ i. record { source = same 0 i; target = same 1 i } };

    ghost word_is_short = { refl };

    ghost numbers_are_few = { refl };
}

ghost use Rattle.dimacs.specs.Calling.{KeepsText};
ghost use Rattle.dimacs.specs.Counts.{CountsFailures};
ghost use Rattle.dimacs.specs.Pairs.{p2p_text};
ghost use Rattle.dimacs.specs.Texts.{InMemory, ReadsText, map_ok};

/// The pairs of a `.p2p` text for a network of `nodes` nodes, in the order of their lines, or the text's first fault. The count of failed calls
/// distinguishes a failed read from a fault of the text. After an `Err` the text is not used again. The call takes 8 bytes a pair.
///
/// With six nodes, and `/` for a line feed, `p aux sp p2p 2 / q 1 6 / q 5 6` gives the pairs from 1 to 6 and from 5 to 6. `p aux sp p2p 1 / q 1 7` gives
/// line 2, `NodeRange`, and `p aux sp p2p 2 / q 1 6` gives line 2, `LineCount`.
pub fn read_p2p<S: Text>(alloc: Global, text: &mut S, nodes: u32) -> Result<Vec<Pair>, Fault>
    ensures read { IfSome (S.bytes text.old) (λ bytes. ReadsText (p2p_text nodes) bytes (S.source text.new) (map_ok vec_items result)) }
    ensures counts { KeepsText CountsFailures S.Text result text.old text.new }
{
    read_items::<Pair, Brand, S>(alloc, text, nodes)
}

/// The pairs of a `.p2p` text in memory, as by `read_p2p`.
pub fn parse_p2p(alloc: Global, bytes: &[u8], nodes: u32) -> Result<Vec<Pair>, Fault>
    ensures { ReadsText (p2p_text nodes) bytes.now InMemory (map_ok vec_items result) }
{
    let mut text = bytes;
    read_p2p(alloc, &mut text, nodes)
}
