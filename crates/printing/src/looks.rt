//! What an operator may ask about a network, as bytes. No list is made: each number is written during a pass over the network.
ghost use Rattle.std.specs.Prelude.{◌≡◌, ◌++◌, [], decimal, length, map, if◌then◌else◌};
ghost use lib.Chars.{codes};
ghost use Rattle.printing.specs.Chosen.{arcs_where, closed_arcs, leads};
ghost use Rattle.printing.specs.Exports.{closing_row, text_of};
ghost use Rattle.printing.specs.Writers.{Puts};
ghost use Rattle.printing.specs.Looks.{state_word, arc_line, listed_numbers, arc_answer, arcs_answer, landmarks_answer, closed_answer, look_answer, look_lines};
ghost use Rattle.rows.specs.Replies.{are_nodes};

use crate::exports::{put_closing, put_landmark_rows};
use crate::failed::Failed;
use crate::printed::{put_number, put_numbered, put_refusal, put_version};
use crate::writer::CountedWriter;
use chunked::ChunkedArray;
use roadnet::{Refusal, RoadArc};
use shared_network::SharedNetwork;
use std::io::Write;

/// A question about a network. It may contain any numbers.
#[derive(Clone, Copy, Debug, PartialEq, Eq)]
pub enum Look {
    /// The arc of this number.
    Arc { number: u64 },
    /// The numbers of all arcs from `tail` to `head`, closed ones too.
    Between { tail: u64, head: u64 },
    Landmarks,
    /// The closed arcs.
    Closed,
}

/// A word, and a number after it.
pub(crate) fn put_part<W: Write>(
    out: &mut CountedWriter<'_, W>,
    word: &[u8],
    number: u64,
) -> Result<(), Failed>
    ensures { Puts W.contents (word.now ++ decimal number) result out.old out.new }
{
    out.write_all(word)?;
    put_number(out, number)
}

/// ` open` or ` closed`, and the end of the line
fn put_state<W: Write>(out: &mut CountedWriter<'_, W>, opened: bool) -> Result<(), Failed>
    ensures { Puts W.contents (state_word opened) result out.old out.new }
{
    if opened {
        out.write_all(b" open\n")
    } else {
        out.write_all(b" closed\n")
    }
}

/// `a K T H W open` or `a K T H W closed`
fn put_arc<W: Write>(
    out: &mut CountedWriter<'_, W>,
    number: u64,
    arc: &RoadArc,
) -> Result<(), Failed>
    ensures { Puts W.contents (arc_line number arc.now) result out.old out.new }
{
    put_part(out, b"a ", number)?;
    put_part(out, b" ", u64::from(arc.tail))?;
    put_part(out, b" ", u64::from(arc.head))?;
    put_part(out, b" ", u64::from(arc.length))?;
    put_state(out, arc.opened)
}

/// The line of the arc of this number, or `no 20`
pub(crate) fn put_arc_answer<W: Write>(
    out: &mut CountedWriter<'_, W>,
    network: &SharedNetwork,
    number: u64,
) -> Result<(), Failed>
    ensures { Puts W.contents (arc_answer network.now number) result out.old out.new }
{
    match network.arc(number) {
        Some(arc) => put_arc(out, number, &arc),
        None => put_refusal(out, Refusal::NoSuchArc.number()),
    }
}

/// Whether the arc leads from the one node to the other.
fn leads(tail: u64, head: u64, arc: &RoadArc) -> bool
    ensures { result ≡ leads tail head arc.now }
{
    u64::from(arc.tail) == tail && u64::from(arc.head) == head
}

/// A blank and the number, if the arc leads from the one node to the other.
fn put_where_it_leads<W: Write>(
    out: &mut CountedWriter<'_, W>,
    tail: u64,
    head: u64,
    number: u64,
    arc: &RoadArc,
) -> Result<(), Failed>
    ensures { Puts W.contents (if leads tail head arc.now then codes " " ++ decimal number else []) result out.old out.new }
{
    if !leads(tail, head, arc) {
        return Ok(());
    }
    put_part(out, b" ", number)
}

/// The numbers of all of these arcs that lead from the one node to the other, a blank before each.
fn put_numbers<W: Write>(
    out: &mut CountedWriter<'_, W>,
    tail: u64,
    head: u64,
    arcs: &ChunkedArray<RoadArc>,
) -> Result<(), Failed>
    ensures { Puts W.contents (listed_numbers (arcs_where (leads tail head) arcs.now)) result out.old out.new }
{
    for place in 0..arcs.len() {
        put_where_it_leads(out, tail, head, place as u64 + 1, arcs.get(place))?;
    }
    Ok(())
}

/// `arcs T H K1 K2 ..`, or `no 24`
fn put_arcs_answer<W: Write>(
    out: &mut CountedWriter<'_, W>,
    network: &SharedNetwork,
    tail: u64,
    head: u64,
) -> Result<(), Failed>
    ensures { Puts W.contents (arcs_answer network.now tail head) result out.old out.new }
{
    if !has_nodes(network, tail, head) {
        return put_refusal(out, Refusal::NoSuchNode.number());
    }
    put_part(out, b"arcs ", tail)?;
    put_part(out, b" ", head)?;
    put_numbers(out, tail, head, network.arcs())?;
    out.write_all(b"\n")
}

/// Whether the network has nodes of both numbers.
fn has_nodes(network: &SharedNetwork, tail: u64, head: u64) -> bool
    ensures { result ≡ are_nodes network.now tail head }
{
    network.has_node(tail) && network.has_node(head)
}

/// `landmarks C`, and `s X` for each
fn put_landmarks_answer<W: Write>(
    out: &mut CountedWriter<'_, W>,
    network: &SharedNetwork,
) -> Result<(), Failed>
    ensures { Puts W.contents (landmarks_answer network.now) result out.old out.new }
{
    put_numbered(out, b"landmarks ", network.landmarks().len() as u64)?;
    put_landmark_rows(out, network.landmarks())
}

/// How many arcs are closed.
fn count_closed(arcs: &ChunkedArray<RoadArc>) -> u64
    ensures { result ≡ length (closed_arcs arcs.now) }
{
    let mut count = 0;
    for place in 0..arcs.len() {
        if !arcs.get(place).opened {
            count += 1;
        }
    }
    count
}

/// A line for each closed arc.
fn put_closed_rows<W: Write>(
    out: &mut CountedWriter<'_, W>,
    arcs: &ChunkedArray<RoadArc>,
) -> Result<(), Failed>
    ensures { Puts W.contents (text_of (map closing_row (closed_arcs arcs.now))) result out.old out.new }
{
    for place in 0..arcs.len() {
        put_closing(out, place as u64 + 1, arcs.get(place))?;
    }
    Ok(())
}

/// `closed C`, and `close K` for each
fn put_closed_answer<W: Write>(
    out: &mut CountedWriter<'_, W>,
    network: &SharedNetwork,
) -> Result<(), Failed>
    ensures { Puts W.contents (closed_answer network.now) result out.old out.new }
{
    put_numbered(out, b"closed ", count_closed(network.arcs()))?;
    put_closed_rows(out, network.arcs())
}

/// The answer to a look at a network. For the arc K from node T to node H of length W it is `a K T H W open` or `a K T H W closed`, or `no 20` if there is
/// no such arc. For the arcs from T to H it is `arcs T H K1 K2 ..`, with their numbers ascending, or `no 24` if T or H is not a node. For the landmarks it
/// is `landmarks C` and C lines `s X`, ascending. For the closed arcs it is `closed C` and C lines `close K`, ascending. It takes no memory.
///
/// In `examples/six.gr`, the arc 7 is `a 7 5 2 0 open`, and the arcs from node 4 to node 6 are `arcs 4 6 6`. From 6 to 1 there is none: `arcs 6 1`.
fn put_look_answer<W: Write>(
    out: &mut CountedWriter<'_, W>,
    network: &SharedNetwork,
    look: Look,
) -> Result<(), Failed>
    ensures { Puts W.contents (look_answer network.now look) result out.old out.new }
{
    match look {
        Look::Arc { number } => put_arc_answer(out, network, number),
        Look::Between { tail, head } => put_arcs_answer(out, network, tail, head),
        Look::Landmarks => put_landmarks_answer(out, network),
        Look::Closed => put_closed_answer(out, network),
    }
}

/// `v V` and the answer to a look.
pub fn put_look<W: Write>(
    out: &mut CountedWriter<'_, W>,
    network: &SharedNetwork,
    version: u64,
    look: Look,
) -> Result<(), Failed>
    ensures { Puts W.contents (look_lines network.now version look) result out.old out.new }
{
    put_version(out, version)?;
    put_look_answer(out, network, look)
}
