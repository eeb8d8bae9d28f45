//! The line about the state of a desk.
ghost use Rattle.std.specs.Prelude.{◌++◌};
ghost use lib.Chars.{codes};
ghost use Rattle.printing.specs.Writers.{Puts};
ghost use Rattle.sessions.specs.Stated.{named_number, working_word, versions_part, waiting_part, journal_part, life_part, threads_part, arcs_part, served_part, state_line, state_or_refusal};

use desk::{DeskState, Working};
use printing::{CountedWriter, Failed, put_number, put_refusal};
use roadnet::Refusal;
use std::io::Write;

/// A word with its blanks, and a number.
fn put_named<W: Write>(
    out: &mut CountedWriter<'_, W>,
    word: &[u8],
    number: u64,
) -> Result<(), Failed>
    ensures { Puts W.contents (named_number word.now number) result out.old out.new }
{
    out.write_all(word)?;
    put_number(out, number)
}

/// `state shown V durable D`
fn put_versions<W: Write>(out: &mut CountedWriter<'_, W>, state: &DeskState) -> Result<(), Failed>
    ensures { Puts W.contents (versions_part state.now) result out.old out.new }
{
    put_named(out, b"state shown ", state.shown)?;
    put_named(out, b" durable ", state.durable)
}

/// ` accepted A pending P`
fn put_waiting<W: Write>(out: &mut CountedWriter<'_, W>, state: &DeskState) -> Result<(), Failed>
    ensures { Puts W.contents (waiting_part state.now) result out.old out.new }
{
    put_named(out, b" accepted ", state.accepted)?;
    put_named(out, b" pending ", state.pending)
}

/// ` unchecked U pages J`
fn put_journal<W: Write>(out: &mut CountedWriter<'_, W>, state: &DeskState) -> Result<(), Failed>
    ensures { Puts W.contents (journal_part state.now) result out.old out.new }
{
    put_named(out, b" unchecked ", state.unchecked)?;
    put_named(out, b" pages ", state.pages)
}

/// ` landmarks L readers R left C`
fn put_life<W: Write>(out: &mut CountedWriter<'_, W>, state: &DeskState) -> Result<(), Failed>
    ensures { Puts W.contents (life_part state.now) result out.old out.new }
{
    put_named(out, b" landmarks ", state.landmarks)?;
    put_named(out, b" readers ", state.readers)?;
    put_named(out, b" left ", state.left)
}

/// `on`, `ended` or `broken`
fn put_working<W: Write>(out: &mut CountedWriter<'_, W>, working: Working) -> Result<(), Failed>
    ensures { Puts W.contents (working_word working) result out.old out.new }
{
    match working {
        Working::On => out.write_all(b"on"),
        Working::Ended => out.write_all(b"ended"),
        Working::Broken => out.write_all(b"broken"),
    }
}

/// A word with its blanks, and the state of a thread.
fn put_thread<W: Write>(
    out: &mut CountedWriter<'_, W>,
    word: &[u8],
    working: Working,
) -> Result<(), Failed>
    ensures { Puts W.contents (word.now ++ working_word working) result out.old out.new }
{
    out.write_all(word)?;
    put_working(out, working)
}

/// ` flusher F builder B`
fn put_threads<W: Write>(out: &mut CountedWriter<'_, W>, state: &DeskState) -> Result<(), Failed>
    ensures { Puts W.contents (threads_part state.now) result out.old out.new }
{
    put_thread(out, b" flusher ", state.flusher)?;
    put_thread(out, b" builder ", state.builder)
}

/// ` arcs A room M`
fn put_arcs<W: Write>(out: &mut CountedWriter<'_, W>, state: &DeskState) -> Result<(), Failed>
    ensures { Puts W.contents (arcs_part state.now) result out.old out.new }
{
    put_named(out, b" arcs ", state.arcs)?;
    put_named(out, b" room ", state.room)
}

/// ` clients N pairs Q waiting W uptime S`
fn put_served<W: Write>(out: &mut CountedWriter<'_, W>, state: &DeskState) -> Result<(), Failed>
    ensures { Puts W.contents (served_part state.now) result out.old out.new }
{
    put_named(out, b" clients ", state.clients)?;
    put_named(out, b" pairs ", state.pairs)?;
    put_named(out, b" waiting ", state.waiting)?;
    put_named(out, b" uptime ", state.uptime)
}

/// The numbers of the desk's machine.
fn put_machine<W: Write>(out: &mut CountedWriter<'_, W>, state: &DeskState) -> Result<(), Failed>
    ensures { Puts W.contents (versions_part state.now ++ waiting_part state.now ++ journal_part state.now ++ life_part state.now) result out.old out.new }
{
    put_versions(out, state)?;
    put_waiting(out, state)?;
    put_journal(out, state)?;
    put_life(out, state)
}

/// Its threads and its surroundings, up to the end of the line.
fn put_rest<W: Write>(out: &mut CountedWriter<'_, W>, state: &DeskState) -> Result<(), Failed>
    ensures { Puts W.contents (threads_part state.now ++ arcs_part state.now ++ served_part state.now ++ codes "\n") result out.old out.new }
{
    put_threads(out, state)?;
    put_arcs(out, state)?;
    put_served(out, state)?;
    out.write_all(b"\n")
}

/// The state of the desk, in a line.
fn put_line<W: Write>(out: &mut CountedWriter<'_, W>, state: &DeskState) -> Result<(), Failed>
    ensures { Puts W.contents (state_line state.now) result out.old out.new }
{
    put_machine(out, state)?;
    put_rest(out, state)
}

/// The state of the desk, or `no CODE`.
pub(crate) fn put_state<W: Write>(
    out: &mut CountedWriter<'_, W>,
    stood: Result<DeskState, Refusal>,
) -> Result<(), Failed>
    ensures { Puts W.contents (state_or_refusal stood) result out.old out.new }
{
    match stood {
        Ok(state) => put_line(out, &state),
        Err(refusal) => put_refusal(out, refusal.number()),
    }
}
