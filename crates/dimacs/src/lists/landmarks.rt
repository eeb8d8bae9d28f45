//! The texts of landmarks.
ghost use Rattle.std.specs.Prelude.{◌≡◌, ◌≢◌, IfOk, IfErr, IfSome, vec_items};
ghost use Rattle.std.specs.List.Sorted.{IsStrictlyIncreasing};
ghost use Rattle.roadnet.specs.Members.{set_of};
ghost use Rattle.dimacs.specs.Lines.{fields};
ghost use Rattle.dimacs.specs.ListedReading.{node_of_numeral, node_read};
ghost use Rattle.dimacs.specs.Reading.{one_numeral};

use crate::fault::{Code, Fault};
use crate::graphs::reading::split_one;
use crate::lines::text::Text;
use crate::lists::listed::{NodeItem, read_items};
use crate::numerals::numeral::Numeral;
use std::alloc::Global;
use std::marker::Brand;

fn node_of(nodes: u32, number: Numeral) -> Result<u32, Code>
    ensures reads_nothing { IfErr result (λ code. code ≢ Code.Read) }
    ensures value { result ≡ node_of_numeral nodes number }
{
    if number.is_unreadable() {
        return Err(Code::NumberRange);
    }
    if number.is_outside(1, u64::from(nodes)) {
        return Err(Code::NodeRange);
    }
    Ok(number.size as u32)
}

/// The node that the number of an item line names, or the fault.
fn read_node(nodes: u32, numbers: &[u8]) -> Option<Result<u32, Code>>
    ensures reads_nothing { IfSome result (λ read. IfErr read (λ code. code ≢ Code.Read)) }
    ensures value { result ≡ node_read nodes (one_numeral (fields numbers.now)) }
{
    let number = split_one(numbers)?;
    Some(node_of(nodes, number))
}

impl NodeItem for u32 {
    ghost use Rattle.std.specs.Prelude.{◌∷◌, [], refl};
    ghost use lib.Chars.{codes};
    ghost use Rattle.dimacs.specs.Format.{Node};
    ghost use Rattle.dimacs.specs.Landmarks.{node_from};

    ghost word = { codes "ss" };

    ghost quantities = { Node ∷ [] };

    ghost says = { node_from };

    ghost LETTER = { 115 };

    const LETTER: u8 = b's';

    fn is_word(field: &[u8]) -> bool {
        field == b"ss".as_slice()
    }

    fn read(nodes: u32, numbers: &[u8]) -> Option<Result<u32, Code>> {
        read_node(nodes, numbers)
    }

    ghost letter_is_no_mark = { refl };

    ghost letter_is_no_problem = { refl };

    ghost says_by_sizes = { λ one other same. same 0 };

    ghost word_is_short = { refl };

    ghost numbers_are_few = { refl };
}

ghost use Rattle.dimacs.specs.Calling.{KeepsText};
ghost use Rattle.dimacs.specs.Counts.{CountsFailures};
ghost use Rattle.dimacs.specs.Landmarks.{ss_text, AreNodes};
ghost use Rattle.dimacs.specs.Texts.{InMemory, ReadsText, map_ok};

/// These nodes as a set: an ascending list.
fn as_set(nodes: Vec<u32>) -> Vec<u32>
    ensures set { result.items ≡ set_of nodes.items }
    ensures ascending { IsStrictlyIncreasing result.items }
{
    let mut nodes = nodes;
    nodes.sort_unstable();
    nodes.dedup();
    nodes
}

/// The landmarks of a `.ss` text for a network of `nodes` nodes, ascending and each once, or the text's first fault. The count of failed calls
/// distinguishes a failed read from a fault of the text. After an `Err` the text is not used again. The call takes 4 bytes a line, and O(K log K)
/// comparisons.
///
/// With six nodes, and `/` for a line feed, `p aux sp ss 3 / s 6 / s 3 / s 6` gives 3 and 6; `p aux sp ss 3 / s 7` gives line 2, `NodeRange`.
pub fn read_ss<S: Text>(alloc: Global, text: &mut S, nodes: u32) -> Result<Vec<u32>, Fault>
    ensures read { IfSome (S.bytes text.old) (λ bytes. ReadsText (ss_text nodes) bytes (S.source text.new) (map_ok vec_items result)) }
    ensures ascending { IfOk result (λ landmarks. IsStrictlyIncreasing landmarks.items) }
    ensures nodes { IfOk result (λ landmarks. AreNodes nodes landmarks.items) }
    ensures counts { KeepsText CountsFailures S.Text result text.old text.new }
{
    let landmarks = read_items::<u32, Brand, S>(alloc, text, nodes)?;
    Ok(as_set(landmarks))
}

/// The landmarks of a `.ss` text in memory, as by `read_ss`.
pub fn parse_ss(alloc: Global, bytes: &[u8], nodes: u32) -> Result<Vec<u32>, Fault>
    ensures text { ReadsText (ss_text nodes) bytes.now InMemory (map_ok vec_items result) }
    ensures ascending { IfOk result (λ landmarks. IsStrictlyIncreasing landmarks.items) }
    ensures nodes { IfOk result (λ landmarks. AreNodes nodes landmarks.items) }
{
    let mut text = bytes;
    read_ss(alloc, &mut text, nodes)
}
