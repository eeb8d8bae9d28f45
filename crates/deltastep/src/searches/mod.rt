//! The calls of a search, and rows that it makes.

mod direct;
pub(crate) mod search;
mod sifting;
pub(crate) mod stepping;
pub(crate) mod workspace;
