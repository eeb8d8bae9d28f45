//! The lines of a session: how they are read, byte by byte, and what each asks for; and what sessions are given, the doors by which clients come and copies.
#![tactic(auto)]

mod asked_tables;
mod copies;
mod doors;
mod drafts;
mod fields;
mod letters;
mod lines;
mod names;
mod reading;
mod so_far;
mod tables;
mod words;

pub use asked_tables::Table;
pub use copies::{AskingAlone, Copies, NoCopies};
pub use doors::Door;
pub use drafts::{Draft, NoGroup};
pub use lines::{Line, is_end, is_quit};
pub use names::Name;
pub use reading::{LastLine, next_line};
