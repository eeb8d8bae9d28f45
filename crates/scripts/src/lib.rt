//! The texts of scripts: command texts with lines for further events.
#![tactic(auto)]

mod script_steps;
mod script_stops;
mod script_texts;
mod script_words;

pub use script_texts::{parse_script, read_script};
