//! The replies to a script's events, as bytes.
ghost use Rattle.printing.specs.Writers.{Puts};
ghost use Rattle.printing.specs.Replied.{printed_reply, printed_replies};

use crate::failed::Failed;
use crate::printed::{put_lines, put_numbered, put_refusal, put_version};
use crate::writer::CountedWriter;
use machine::Replied;
use std::io::Write;

/// `stopped` and `v V`
fn put_opened<W: Write>(out: &mut CountedWriter<'_, W>, version: u64) -> Result<(), Failed>
    ensures { Puts W.contents (printed_reply (Replied.Opened version)) result out.old out.new }
{
    out.write_all(b"stopped\n")?;
    put_version(out, version)
}

/// The lines of a reply: `t N`, `ok N`, `task V`, `shown V`, `v V` with an answer line, `no CODE`, `stopped` with `v V`, or
/// `stopped` alone. Nothing else is written.
pub fn put_reply<W: Write>(out: &mut CountedWriter<'_, W>, reply: &Replied) -> Result<(), Failed>
    ensures { Puts W.contents (printed_reply reply.now) result out.old out.new }
{
    match *reply {
        Replied::Accepted { number } => put_numbered(out, b"t ", number),
        Replied::Durable { version } => put_numbered(out, b"ok ", version),
        Replied::Stepped => out.write_all(b"step\n"),
        Replied::Task { version } => put_numbered(out, b"task ", version),
        Replied::Shown { version } => put_numbered(out, b"shown ", version),
        Replied::Answered { query, answer } => put_lines(out, answer.version, &query, answer.reply),
        Replied::Refused { refusal } => put_refusal(out, refusal.number()),
        Replied::Opened { version } => put_opened(out, version),
        Replied::Stopped => out.write_all(b"stopped\n"),
    }
}

/// The lines of these replies, in their order, and nothing else.
pub fn put_replies<W: Write>(
    out: &mut CountedWriter<'_, W>,
    replies: &[Replied],
) -> Result<(), Failed>
    ensures { Puts W.contents (printed_replies replies.now) result out.old out.new }
{
    for reply in replies {
        put_reply(out, reply)?;
    }
    Ok(())
}
