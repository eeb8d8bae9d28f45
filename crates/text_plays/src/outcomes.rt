//! What comes out of a call.
ghost use Rattle.std.specs.Option.{ForSome};
ghost use Rattle.rows.specs.Kept.{IsWidth};

use blocks::{Given, Head, NotingWriter};
use printing::{Failed, fault_line};
use std::alloc::Global;
use std::io;
use std::io::Write;

/// The width of a head, if it names one.
pub(crate) fn width_of(head: Head<'_>) -> Option<u32>
    ensures { ForSome result IsWidth }
{
    match head.count_of("delta") {
        Some(width) if 1 <= width && width <= 2147483647 => Some(width),
        _ => None,
    }
}

/// The name of the text that has a fault, or of the call's first.
fn name_of<'n>(failed: &Failed, names: &[&'n str]) -> &'n str {
    let which = match failed {
        Failed::Text { which, fault: _ } => *which,
        Failed::Code(_) => 0,
    };
    match names.get(which as usize) {
        Some(name) => *name,
        None => "",
    }
}

/// Adds what a call wrote, and the fault line of one that was refused, whose texts have these names. What it wrote is left out where a call of its writer was to fail.
pub(crate) fn put_outcome<T: Drop>(
    given: Given<'_, '_>,
    outcome: Result<T, Failed>,
    names: &[&str],
    writer: &NotingWriter,
    out: &mut Vec<u8>,
) -> io::Result<()> {
    if outcome.is_ok() || given.turn.write == 0 {
        out.extend_from_slice(&writer.written)?;
    }
    if let Err(failed) = outcome {
        writeln!(out, "{}", fault_line(&failed, name_of(&failed, names)))?;
    }
    if given.head.has("sent") {
        put_sent(&writer.sent, out)?;
    }
    Ok(())
}

/// Adds how many bytes each flush sent out.
fn put_sent(sent: &[usize], out: &mut Vec<u8>) -> io::Result<()> {
    for count in sent {
        writeln!(out, "sent {count}")?;
    }
    Ok(())
}
