//! Reports on standard error of how far a job has come, and of why it failed; and readers, writers and disks that report their calls.
#![tactic(auto)]

mod disks;
mod notes;
mod streams;

pub use disks::{TellingDisk, TellsFailure};
pub use notes::{Progress, ToldName};
pub use streams::{TellingReader, TellingWriter};
