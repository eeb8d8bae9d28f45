//! Arrays in chunks, and lists, that their versions share: a change copies the one chunk that it touches.
#![tactic(auto)]

mod arrays;
mod chunks;
mod lists;
mod pieces;
mod table;
mod tables;
mod words;

pub use arrays::ChunkedArray;
pub use lists::SharedList;
pub use pieces::CHUNK;
pub use words::{ChunkedWords, WordTable};
