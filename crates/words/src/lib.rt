//! The words that the program takes, as jobs: what each asks for, its help, and the pairs of pipes that are named among them.
#![tactic(auto)]

mod commands;
mod entries;
mod helps;
mod inputs;
mod jobs;
mod names;
mod pipes;
mod usages;
mod words;

pub use inputs::is_input;
pub use jobs::{ArcNumbers, Job, PairTexts};
pub use names::MOST_JOURNAL_PAGES;
pub use pipes::{Misfit, PipePair, pairs_of, pipe_at};
pub use usages::{MISUSE, Usage};
pub use words::{Asked, read_words};
