//! The calls of a session: its lines carried out by the desk.

mod answers;
mod carrying;
pub(crate) mod seeing;
pub(crate) mod sessions;
mod supposing;
