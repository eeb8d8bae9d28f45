//! The answers about what is supposed, written and sent.

ghost use Rattle.printing.specs.Writers.{Puts};
ghost use Rattle.sessions.specs.Supposing.{forgotten_line, suppose_line, supposed_lines, supposed_or_refusal};

use printing::{CountedWriter, Failed, put_answer, put_numbered, put_refusal};
use roadnet::{OutOfMemory, Refusal};
use rows::{Query, Reply};
use std::io::Write;

/// `suppose V`, sent.
pub(crate) fn tell_supposed<W: Write>(
    out: &mut CountedWriter<'_, W>,
    version: u64,
) -> Result<(), Failed>
    ensures { Puts W.contents (suppose_line version) result out.old out.new }
{
    put_numbered(out, b"suppose ", version)?;
    out.flush()
}

/// `forgotten`, sent.
pub(crate) fn tell_forgotten<W: Write>(out: &mut CountedWriter<'_, W>) -> Result<(), Failed>
    ensures { Puts W.contents forgotten_line result out.old out.new }
{
    out.write_all(b"forgotten\n")?;
    out.flush()
}

/// `s V` and the line of an answer.
fn put_supposed<W: Write>(
    out: &mut CountedWriter<'_, W>,
    version: u64,
    query: &Query,
    reply: Reply,
) -> Result<(), Failed>
    ensures { Puts W.contents (supposed_lines version query.now reply) result out.old out.new }
{
    put_numbered(out, b"s ", version)?;
    put_answer(out, query, reply)
}

/// `s V` and the line of an answer, or `no 11`.
fn put_found<W: Write>(
    out: &mut CountedWriter<'_, W>,
    version: u64,
    query: &Query,
    found: Result<Reply, OutOfMemory>,
) -> Result<(), Failed>
    ensures { Puts W.contents (supposed_or_refusal version query.now found) result out.old out.new }
{
    match found {
        Ok(reply) => put_supposed(out, version, query, reply),
        Err(OutOfMemory) => put_refusal(out, Refusal::OutOfMemory.number()),
    }
}

/// `s V` and the line of an answer, or `no 11`, sent.
pub(crate) fn tell_found<W: Write>(
    out: &mut CountedWriter<'_, W>,
    version: u64,
    query: &Query,
    found: Result<Reply, OutOfMemory>,
) -> Result<(), Failed>
    ensures { Puts W.contents (supposed_or_refusal version query.now found) result out.old out.new }
{
    put_found(out, version, query, found)?;
    out.flush()
}
