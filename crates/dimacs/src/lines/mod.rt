//! The lines of a text, from its bytes to whoever takes them.

pub(crate) mod counted;
pub(crate) mod feed;
mod front;
pub(crate) mod line;
pub(crate) mod taking;
pub(crate) mod text;
