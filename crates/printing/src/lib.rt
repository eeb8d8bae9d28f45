//! What the program prints: answer lines, the lines of a script's replies, fault lines and statuses, through a writer that counts its failed calls.
#![tactic(auto)]

mod answered;
mod done;
mod exports;
mod failed;
mod looks;
mod nodes;
mod printed;
mod replied;
mod route_lines;
mod writer;

pub use done::Done;
pub use exports::{Exported, Origin, laws_of_exports, put_exported};
pub use failed::{Failed, FaultLine, fault_line, of_text, status};
pub use looks::{Look, put_look};
pub use nodes::{put_nearest, put_pairs, put_reach, put_reached};
pub use printed::{put_answer, put_lines, put_number, put_numbered, put_refusal, put_version};
pub use replied::{put_replies, put_reply};
pub use route_lines::put_route;
pub use writer::CountedWriter;
