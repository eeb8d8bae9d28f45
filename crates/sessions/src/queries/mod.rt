//! The answers to queries, found in what is shown or supposed, and written.

pub(crate) mod around;
pub(crate) mod asking;
pub(crate) mod finding;
pub(crate) mod walking;
