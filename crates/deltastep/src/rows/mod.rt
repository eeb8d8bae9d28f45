//! A row, and what it tells of nodes.

pub(crate) mod distances;
pub(crate) mod known;
mod words;
