//! The other lines that a session writes.

mod stating;
pub(crate) mod supposed;
pub(crate) mod telling;
