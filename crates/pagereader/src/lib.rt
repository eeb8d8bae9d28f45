//! Pages of a file, read over any disk.
#![tactic(auto)]

mod numbers;
mod reader;

pub use numbers::read_open_number;
pub use reader::{PageReader, read_page};
