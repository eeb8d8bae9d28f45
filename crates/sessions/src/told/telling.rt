//! The answers of a session, written and sent.
ghost use Rattle.std.specs.Prelude.{◌≡◌};
ghost use Rattle.printing.specs.Looks.{look_lines};
ghost use Rattle.printing.specs.Printed.{refusal_line};
ghost use Rattle.printing.specs.Replied.{printed_reply};
ghost use Rattle.roadnet.specs.Numbers.{number_of};
ghost use Rattle.printing.specs.Writers.{Puts};
ghost use Rattle.sessions.specs.Stated.{state_or_refusal};
ghost use Rattle.sessions.specs.Told.{copied_or_refusal};
ghost use Rattle.sessions.specs.Turns.{asks_alone, fault_number, version_or_refusal};

use crate::told::stating::put_state;
use desk::{DeskState, Glance, Naming};
use dimacs::Code;
use machine::Replied;
use printing::{
    CountedWriter, Failed, Look, put_look, put_numbered, put_refusal, put_reply, put_version,
};
use roadnet::Refusal;
use std::io::Write;

/// The number with which a command is refused in a session that may only ask.
const ASKS_ALONE: u8 = 64;

/// The number of a fault: 1, 5, or 13 of a group.
fn number_of_fault(code: Code) -> u8
    ensures { result ≡ fault_number code }
{
    match code {
        Code::NumberRange => 5,
        Code::GroupSize => 13,
        _ => 1,
    }
}

/// The lines of a reply, sent.
pub(crate) fn tell_reply<W: Write>(
    out: &mut CountedWriter<'_, W>,
    reply: &Replied,
) -> Result<(), Failed>
    ensures { Puts W.contents (printed_reply reply.now) result out.old out.new }
{
    put_reply(out, reply)?;
    out.flush()
}

/// `v V` or `no CODE`
fn put_shown<W: Write>(
    out: &mut CountedWriter<'_, W>,
    shown: Result<u64, Refusal>,
) -> Result<(), Failed>
    ensures { Puts W.contents (version_or_refusal shown) result out.old out.new }
{
    match shown {
        Ok(version) => put_version(out, version),
        Err(refusal) => put_refusal(out, refusal.number()),
    }
}

/// `v V` or `no CODE`, sent.
pub(crate) fn tell_version<W: Write>(
    out: &mut CountedWriter<'_, W>,
    shown: Result<u64, Refusal>,
) -> Result<(), Failed>
    ensures { Puts W.contents (version_or_refusal shown) result out.old out.new }
{
    put_shown(out, shown)?;
    out.flush()
}

/// What is seen at a glance of what is asked for, after the version, sent. The view is held until then.
pub(crate) fn tell_look<N: Naming, W: Write>(
    out: &mut CountedWriter<'_, W>,
    glance: &Glance<N>,
    look: Look,
) -> Result<(), Failed>
    ensures { Puts W.contents (look_lines glance.now.view.network glance.now.view.version look) result out.old out.new }
{
    put_look(out, glance.network(), glance.version(), look)?;
    out.flush()
}

/// `copied V` or `no CODE`
fn put_copied<W: Write>(
    out: &mut CountedWriter<'_, W>,
    copied: Result<u64, Refusal>,
) -> Result<(), Failed>
    ensures { Puts W.contents (copied_or_refusal copied) result out.old out.new }
{
    match copied {
        Ok(version) => put_numbered(out, b"copied ", version),
        Err(refusal) => put_refusal(out, refusal.number()),
    }
}

/// `copied V` or `no CODE`, sent.
pub(crate) fn tell_copied<W: Write>(
    out: &mut CountedWriter<'_, W>,
    copied: Result<u64, Refusal>,
) -> Result<(), Failed>
    ensures { Puts W.contents (copied_or_refusal copied) result out.old out.new }
{
    put_copied(out, copied)?;
    out.flush()
}

/// `no CODE`, sent.
pub(crate) fn tell_refusal<W: Write>(
    out: &mut CountedWriter<'_, W>,
    refusal: Refusal,
) -> Result<(), Failed>
    ensures { Puts W.contents (refusal_line (number_of refusal)) result out.old out.new }
{
    put_refusal(out, refusal.number())?;
    out.flush()
}

/// The state of the desk, or `no CODE`, sent.
pub(crate) fn tell_state<W: Write>(
    out: &mut CountedWriter<'_, W>,
    stood: Result<DeskState, Refusal>,
) -> Result<(), Failed>
    ensures { Puts W.contents (state_or_refusal stood) result out.old out.new }
{
    put_state(out, stood)?;
    out.flush()
}

/// `no CODE` for a line or a group that has a fault, sent.
pub(crate) fn tell_fault<W: Write>(out: &mut CountedWriter<'_, W>, code: Code) -> Result<(), Failed>
    ensures { Puts W.contents (refusal_line (fault_number code)) result out.old out.new }
{
    put_refusal(out, number_of_fault(code))?;
    out.flush()
}

/// `no 64` for a command or a group in a session that may only ask, sent.
pub(crate) fn tell_asks_alone<W: Write>(out: &mut CountedWriter<'_, W>) -> Result<(), Failed>
    ensures { Puts W.contents (refusal_line asks_alone) result out.old out.new }
{
    put_refusal(out, ASKS_ALONE)?;
    out.flush()
}
