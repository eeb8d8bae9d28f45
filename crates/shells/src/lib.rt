//! A shell in which tests run the program: it gives a run its words and its standard input, keeps what the run prints, and has the run's
//! files in a folder. Some of the run's calls can be made to fail.
#![tactic(auto)]

mod files;
mod input;
mod shell;
mod streams;

pub use input::ShellInput;
pub use shell::{Shell, Told};
