//! Rehearsals: a script's events over lives of a keeper, with stops between them and within them.
#![tactic(auto)]

mod halted;
mod lives;
mod living;
mod rehearsing;

pub use rehearsing::{Rehearsal, rehearse};
