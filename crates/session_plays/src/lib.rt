//! Plays of sessions: with one client of a desk over a store in memory, and with many at doors, as cases have them.
//!
//! The texts of a case are what its clients send; before them may stand the text of a network, which is else that of the worked rows.
//!
//! | Call | Plays |
//! |---|---|
//! | `session` | the lines of a client are answered by a desk |
//! | `doors` | each text is sent by the clients of a door of its own, all doors at once |
//!
//! Each has these options, beside those of all cases:
//!
//! | Option | Means |
//! |---|---|
//! | `network` | the first text is the network |
//! | `landmarks A,B`, `landmarks A..B` | these are its landmarks |
//! | `room N`, `pages N`, `version N` | the store has room for so many arcs, a journal of so many pages, and stands at this version |
//! | `delta N`, `workers N`, `patience N` | the desk's setup, with its patience in milliseconds |
//! | `disk-fails N` | the disk's call of this number fails, counted from the opening on |
//! | `flush-misses N`, `task-misses N`, `step-misses N` | so many of these calls of the gate find no memory |
//! | `slow-flush N` | a flush takes so many milliseconds longer |
//! | `stop PICK` | the disk that is left is stopped with this pick before it is opened |
//! | `left`, `told` | of a `session` it is told what is left, of `doors` what their clients are answered |
//! | `halted`, `crowded` | sessions find the desk halted, or with as many readers as it may have |
//! | `alone`, `copies` | the sessions ask alone, or the copies that they ask for are made |
//! | `count N`, `clients N`, `asking N` | there are so many doors, in place of one for each text; so many clients come to each, one after the other, and this door's ask alone |
#![tactic(auto)]

mod answering;
mod doors;
mod own_texts;

use blocks::{Call, Given};
use stages::CaseRuntime;
use std::alloc::Global;
use std::io;
use std::io::Write;

/// The options of both calls: behind one that ends with `=` stands its value.
const OPTIONS: &str =
    "network landmarks= room= pages= version= delta= workers= patience= slow-flush= flush-misses= task-misses= step-misses= stop= halted crowded alone copies left clients= count= asking= told";

/// The calls of these plays.
pub const CALLS: &[Call] = &[("session", OPTIONS), ("doors", OPTIONS)];

/// Makes the call of a case, and adds what comes out.
pub fn play<R: CaseRuntime>(
    rt: R,
    alloc: Global,
    given: Given<'_, '_>,
    out: &mut Vec<u8>,
) -> io::Result<()> {
    let told = match given.head.word(0) {
        "session" => answering::play(rt, alloc, given, out),
        _ => doors::play(rt, alloc, given, out),
    };
    match told {
        Ok(()) => Ok(()),
        Err(refusal) => writeln!(out, "{refusal}"),
    }
}
