//! What is read when a store is opened.

pub(crate) mod found;
mod header;
pub(crate) mod opening;
mod replay;
