//! Plays of texts: the public calls that take texts and give texts, as cases have them.
#![tactic(auto)]

mod making;
mod outcomes;
mod queries;
mod reading;
mod served;
mod stores;
mod worded;

pub use stores::{CALLS, Made};
