//! The answer lines that name two nodes. Each is put together in a buffer, from its end, so that a line is written by one call.
ghost use Rattle.std.specs.Prelude.{◌≡◌, ◌+◌, ◌<◌, ◌≤◌, ◌∷◌, ◌++◌, length, drop, decimal};
ghost use lib.Chars.{codes};
ghost use Rattle.printing.specs.Printed.{with_nodes, answer_line};

use itoa::write_digits;
use rows::{Query, Reply};

/// The space for a line. The longest has 65 bytes: a letter, three times a blank with twenty digits after it, and a line feed.
pub(crate) const LINE_ROOM: usize = 72;

/// Puts a byte before `end`, where the rest of the line begins. Returns its place.
fn put_byte(byte: u8, buf: &mut [u8], end: usize) -> usize
    requires { (0 < end) × (end ≤ length buf.old) }
    ensures start { result + 1 ≡ end }
    ensures written { drop result buf.new ≡ byte ∷ drop end buf.old }
{
    buf[end - 1] = byte;
    end - 1
}

/// Puts a blank and a number in decimal digits before `end`. Returns the place of the blank.
#[tactic(auto, using(crate::proofs::AnsweredLines::twenty_digits))]
fn put_spaced(number: u64, buf: &mut [u8], end: usize) -> usize
    requires { (21 ≤ end) × (end ≤ length buf.old) }
    ensures start { result + 1 + length (decimal number) ≡ end }
    ensures short { end ≤ result + 21 }
    ensures written { drop result buf.new ≡ codes " " ++ decimal number ++ drop end buf.old }
{
    let digits = write_digits(number, buf, end);
    put_byte(b' ', buf, digits)
}

/// Puts a letter and the two nodes of a query, with a blank before each, before `end`. Returns the place of the letter.
fn put_nodes(letter: u8, query: &Query, buf: &mut [u8], end: usize) -> usize
    requires { (43 ≤ end) × (end ≤ length buf.old) }
    ensures start { result + length (with_nodes (letter ∷ codes " ") query.now) ≡ end }
    ensures written { drop result buf.new ≡ with_nodes (letter ∷ codes " ") query.now ++ drop end buf.old }
{
    let second = put_spaced(query.target(), buf, end);
    let first = put_spaced(query.source(), buf, second);
    put_byte(letter, buf, first)
}

/// Puts `d S T L` or `b S T L`, by its letter, at the end of the buffer. Returns where the line begins.
pub(crate) fn length_line(
    letter: u8,
    query: &Query,
    length: u64,
    line: &mut [u8; LINE_ROOM],
) -> usize
    ensures within { result ≤ 72 }
    ensures written { drop result line.new ≡ with_nodes (letter ∷ codes " ") query.now ++ codes " " ++ decimal length ++ codes "\n" }
{
    let end = put_byte(b'\n', line, LINE_ROOM);
    let nodes_end = put_spaced(length, line, end);
    put_nodes(letter, query, line, nodes_end)
}

/// Puts `x S T` at the end of the buffer. Returns where the line begins.
pub(crate) fn no_walk_line(query: &Query, line: &mut [u8; LINE_ROOM]) -> usize
    ensures within { result ≤ 72 }
    ensures written { drop result line.new ≡ answer_line query.now Reply.NoWalk }
{
    let end = put_byte(b'\n', line, LINE_ROOM);
    put_nodes(b'x', query, line, end)
}
