//! Plays of desks: calls of a desk over a store in memory, as cases have them.
//!
//! The call `desk` starts a desk, calls it line by line, and closes it. The last text of a case has the lines; before it may stand the text of a network,
//! which is else that of the worked rows. It has these options, beside those of all cases:
//!
//! | Option | Means |
//! |---|---|
//! | `network` | the first text is the network |
//! | `landmarks A,B`, `landmarks A..B` | these are its landmarks |
//! | `room N`, `pages N`, `version N` | the store has room for so many arcs, a journal of so many pages, and stands at this version |
//! | `delta N`, `workers N`, `patience N` | the desk's setup, with its patience in milliseconds |
//! | `disk-fails N` | the disk's call of this number fails, counted from the opening on |
//! | `held POST,POST` | the gate holds these calls until they are let go: `flush`, `task`, `step`, `row` |
//! | `flush-misses N`, `task-misses N`, `step-misses N` | so many of these calls find no memory |
//! | `short-for N` | no flush and no task finds memory within so many milliseconds |
//! | `brief`, `confirmed` | it is not told what the gate noted, or it is told how many receipts the closed desk confirms |
//! | `outlived`, `let-go` | the last two texts have lines: those of the second are played behind the desk's end, by what others have of it; it is not closed, but let go, and nothing more is told |
//! | `stop PICK` | the disk that is left is stopped with this pick before it is opened |
//! | `rounds N` | it is played again while a call was late, so often at most |
#![tactic(auto)]

mod desks;
mod moves;

use blocks::{Call, Given};
use stages::CaseRuntime;
use std::alloc::Global;
use std::io;
use std::io::Write;

/// The options of the call: behind one that ends with `=` stands its value.
const OPTIONS: &str =
    "network landmarks= room= pages= version= delta= workers= patience= held= flush-misses= task-misses= step-misses= short-for= stop= rounds= brief confirmed outlived let-go";

/// The calls of these plays.
pub const CALLS: &[Call] = &[("desk", OPTIONS)];

/// Makes the call of a case, and adds what comes out.
pub fn play<R: CaseRuntime>(
    rt: R,
    alloc: Global,
    given: Given<'_, '_>,
    out: &mut Vec<u8>,
) -> io::Result<()> {
    match desks::play(rt, alloc, given, out) {
        Ok(()) => Ok(()),
        Err(refusal) => writeln!(out, "{refusal}"),
    }
}
