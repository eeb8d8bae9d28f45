//! Rows that are kept: what the row of a landmark tells of two nodes, and a cache of rows by version and source.
#![tactic(auto)]

mod caches;
mod told;

pub use caches::{DEFAULT_ROWS, RowCache};
pub use told::told_by;
