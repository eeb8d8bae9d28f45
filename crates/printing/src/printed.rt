//! Answer lines, as bytes.
ghost use Rattle.std.specs.Prelude.{◌∷◌, ◌++◌, decimal};
ghost use lib.Chars.{codes};
ghost use Rattle.printing.specs.Writers.{Puts};
ghost use Rattle.printing.specs.Printed.{version_line, with_nodes, refusal_line, answer_line, lines_of};
ghost use Rattle.printing.specs.Replied.{number_line};

use crate::answered::{LINE_ROOM, length_line, no_walk_line};
use crate::failed::Failed;
use crate::writer::CountedWriter;
use itoa::Buffer;
use rows::{Query, Reply};
use std::io::Write;

/// A number in decimal digits.
pub fn put_number<W: Write>(out: &mut CountedWriter<'_, W>, number: u64) -> Result<(), Failed>
    ensures { Puts W.contents (decimal number) result out.old out.new }
{
    let mut buffer = Buffer::new();
    out.write_all(buffer.format(number).as_bytes())
}

/// A word with a blank after it, a number and a line feed.
pub fn put_numbered<W: Write>(
    out: &mut CountedWriter<'_, W>,
    word: &[u8],
    number: u64,
) -> Result<(), Failed>
    ensures { Puts W.contents (number_line word.now number) result out.old out.new }
{
    out.write_all(word)?;
    put_number(out, number)?;
    out.write_all(b"\n")
}

/// `v V`
pub fn put_version<W: Write>(out: &mut CountedWriter<'_, W>, version: u64) -> Result<(), Failed>
    ensures { Puts W.contents (version_line version) result out.old out.new }
{
    put_numbered(out, b"v ", version)
}

/// `no CODE`
pub fn put_refusal<W: Write>(out: &mut CountedWriter<'_, W>, code: u8) -> Result<(), Failed>
    ensures { Puts W.contents (refusal_line code) result out.old out.new }
{
    put_numbered(out, b"no ", u64::from(code))
}

/// The letter, the nodes and a length: `d S T L` or `b S T L`, by one write.
fn put_length<W: Write>(
    out: &mut CountedWriter<'_, W>,
    letter: u8,
    query: &Query,
    length: u64,
) -> Result<(), Failed>
    ensures { Puts W.contents (with_nodes (letter ∷ codes " ") query.now ++ codes " " ++ decimal length ++ codes "\n") result out.old out.new }
{
    let mut line = [0; LINE_ROOM];
    let start = length_line(letter, query, length, &mut line);
    out.write_all(&line[start..])
}

/// `x S T`, by one write.
fn put_no_walk<W: Write>(out: &mut CountedWriter<'_, W>, query: &Query) -> Result<(), Failed>
    ensures { Puts W.contents (answer_line query.now Reply.NoWalk) result out.old out.new }
{
    let mut line = [0; LINE_ROOM];
    let start = no_walk_line(query, &mut line);
    out.write_all(&line[start..])
}

/// `d S T L`, `x S T`, `b S T L` or `no CODE`
pub fn put_answer<W: Write>(
    out: &mut CountedWriter<'_, W>,
    query: &Query,
    reply: Reply,
) -> Result<(), Failed>
    ensures { Puts W.contents (answer_line query.now reply) result out.old out.new }
{
    match reply {
        Reply::Length(length) => put_length(out, b'd', query, length),
        Reply::NoWalk => put_no_walk(out, query),
        Reply::AtLeast(bound) => put_length(out, b'b', query, bound),
        Reply::Refused(refusal) => put_refusal(out, refusal.number()),
    }
}

/// The lines of a query: the version and the answer.
pub fn put_lines<W: Write>(
    out: &mut CountedWriter<'_, W>,
    version: u64,
    query: &Query,
    reply: Reply,
) -> Result<(), Failed>
    ensures { Puts W.contents (lines_of version query.now reply) result out.old out.new }
{
    put_version(out, version)?;
    put_answer(out, query, reply)
}
