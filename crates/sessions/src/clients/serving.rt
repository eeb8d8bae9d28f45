//! A session with one client.
ghost use Rattle.std.specs.Prelude.{◌≡◌, IfErr};
ghost use Rattle.dimacs.specs.Counts.{failed_calls, IsSameReader};
ghost use Rattle.printing.specs.Counting.{failed_writes, IsSameWriter};
ghost use Rattle.printing.specs.Failing.{CountsWrites};
ghost use Rattle.sessions.specs.Clients.{AreAnswered};
ghost use Rattle.sessions.specs.Told.{CountsRead, IsOfStream};

use crate::clients::answering::Answering;
use crate::session::sessions::Session;
use desk::{Handle, Served};
use dimacs::Counted;
use printing::{CountedWriter, Failed};
use roadnet::Refusal;
use session_lines::{Copies, LastLine, is_quit, next_line};
use std::alloc::Global;
use std::io::{BufRead, Write};

/// The terms of a session.
#[derive(Clone, Copy)]
pub struct Terms<'a, C> {
    /// What to do with a last line that no line feed ends.
    pub last_line: LastLine,
    /// Where the session is counted while it is within an answer.
    pub answering: &'a Answering,
    /// Whoever makes the copies that its lines ask for, and whether its commands are carried out.
    pub copies: &'a C,
}

/// Carries out the lines of a client in their order by the desk. Each is answered, and the answer is sent, before the next line is read. The session ends
/// at the line `quit` and at the end of the input. The desk goes on.
///
/// The lines and their answers, where `no CODE` may come in place of an answer:
///
/// - the six commands: `ok N` once the command is durable;
/// - `dist S T`, `from X T` and `lower S T`: `v V` and an answer line, from a glance of that moment;
/// - `arc K`, `arcs T H`, `landmarks` and `closed`: `v V` and lines about the shown network, from a glance that is held until they are written;
/// - `reach S L`, `reached T L`, `nearest S K` and `table A B S.. T..`: `v V` and lines of lengths, all in the network of that version;
/// - `route S T`: `v V` and the lines of a route, from a glance that is held until they are written;
/// - `wait`: `v V` once the session's last accepted group is shown;
/// - `until N`: `v V` once version N is shown;
/// - `state`: the state of the desk, in a line;
/// - `copy NAME`: `copied V` once a copy of the shown network is made under this name, of 1 to 64 letters, digits, `-` and `_`; `no 1` if no copies are
/// made;
/// - `suppose`, followed by the commands of a group and `end`: `suppose V`. From then on queries, nodes near a node, routes and tables are answered in the
/// network of version V with the group carried out, after `s V`;
/// - `forget`: `forgotten`, and what was supposed is dropped; `no 1` if nothing was;
/// - `begin` and `end`, which enclose the commands of a group: nothing before the end, and then `ok N` for the whole once it is durable, or the code of its
/// first line that has a fault;
/// - `quit`.
///
/// In a session that may only ask, a command and a group without a fault get `no 64`, and nothing of them is accepted. A group that `quit` or the end of
/// the input cuts off is dropped. Lines with no field, and comments, which begin with `#`, have no answer. Any other line gets `no 1` or `no 5`. No line is
/// too long: a line takes no memory, except 8 bytes for each number of a table. A group takes 32 bytes a command. A last line that no line feed ends counts
/// as a line or is dropped, as the terms say; if it is dropped, only complete lines are carried out.
///
/// Between two lines the session holds no view of the desk and keeps no row: the desk keeps rows for all sessions.
///
/// What the session has of its desk is returned: with it `Session::is_kept` says of the closed desk what the session's answers promised.
///
/// The only errors are a failed call of the reader (10) and of the writer (12). What the desk refuses is an answer, even if it has no reader place for the
/// session (`no 60`, at each query until there is one).
pub fn serve<S: Served, C: Copies, I: BufRead, W: Write>(
    rt: &S::Runtime,
    alloc: Global,
    desk: &Handle<S>,
    terms: Terms<'_, C>,
    reader: &mut Counted<'_, I>,
    writer: &mut CountedWriter<'_, W>,
) -> (Result<(), Failed>, Session<S::Naming>)
    ensures answered { AreAnswered C.copying terms.entry S.Naming.origin I.remaining W.contents reader.old reader.new writer.old writer.new result }
    ensures reads { CountsRead (failed_calls reader.old) (failed_calls reader.new) result.0 }
    ensures writes { CountsWrites (failed_writes writer.old) (failed_writes writer.new) result.0 }
    ensures causes { IfErr result.0 IsOfStream }
    ensures same_reader { IsSameReader reader.old reader.new }
    ensures same_writer { IsSameWriter writer.old writer.new }
{
    let mut session = Session::new();
    for _ in rt.forever() {
        let line = match next_line(rt, alloc, reader, terms.last_line) {
            Ok(None) => return (Ok(()), session.ended()),
            Ok(Some(line)) => line,
            Err(_) => return (Err(Failed::Code(Refusal::Read)), session.ended()),
        };
        if is_quit(&line) {
            return (Ok(()), session.ended());
        }
        let is_counted = terms.answering.begin();
        let told = session.answer(rt, alloc, desk, terms.copies, line, writer);
        terms.answering.end(is_counted);
        if let Err(failed) = told {
            return (Err(failed), session.ended());
        }
    }
    unreachable!()
}
