//! The jobs of the program on files, for any runtime: texts and stores that it reads and makes, what it answers on standard output, and what it reports.
#![tactic(auto)]

mod command_lines;
mod endings;
mod exports;
mod files;
mod jobs;
mod making_jobs;
mod names;
mod patient;
mod running;
mod store_jobs;
mod streams;

pub use endings::{ended, job_status, show_usage, tell_cause, tell_failure, without_words};
pub use exports::open_folder;
pub use files::{FIRST_PIPE, open_served_store, standard_input, standard_output, unopened};
pub use names::text_name;
pub use patient::Patient;
pub use running::{Kind, kind_of, run_making, run_on_store, run_on_texts};
pub use streams::{Streams, hold_streams};
