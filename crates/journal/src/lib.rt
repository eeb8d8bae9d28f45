//! The journal of a store: a ring of pages of commands, written one after the other.
#![tactic(auto)]

mod append;

pub use append::append_page;
