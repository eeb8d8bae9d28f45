//! The nodes that a text of landmarks lists, in the order of its lines.
ghost use Rattle.std.specs.Prelude.{IfSome, vec_items};
ghost use Rattle.dimacs.specs.Calling.{KeepsText};
ghost use Rattle.dimacs.specs.Counts.{CountsFailures};
ghost use Rattle.dimacs.specs.Landmarks.{nodes_text};
ghost use Rattle.dimacs.specs.Texts.{ReadsText, map_ok};

use crate::fault::Fault;
use crate::lines::text::Text;
use crate::lists::listed::read_items;
use std::alloc::Global;
use std::marker::Brand;

/// The nodes in the lines of a `.ss` text for a network of `nodes` nodes, in the order of the lines, each as often as it is listed, or the text's first
/// fault. The count of failed calls distinguishes a failed read from a fault of the text. After an `Err` the text is not used again. The call takes 4 bytes
/// a line.
///
/// With six nodes, and `/` for a line feed, `p aux sp ss 3 / s 6 / s 3 / s 6` gives 6, 3 and 6.
pub fn read_nodes<S: Text>(alloc: Global, text: &mut S, nodes: u32) -> Result<Vec<u32>, Fault>
    ensures read { IfSome (S.bytes text.old) (λ bytes. ReadsText (nodes_text nodes) bytes (S.source text.new) (map_ok vec_items result)) }
    ensures counts { KeepsText CountsFailures S.Text result text.old text.new }
{
    read_items::<u32, Brand, S>(alloc, text, nodes)
}
