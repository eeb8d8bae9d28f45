//! What would be if a group of commands were carried out: a network that one asker alone has, and answers in it.
#![tactic(auto)]

mod supposed;

pub use supposed::Supposed;
