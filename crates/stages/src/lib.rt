//! What the plays of desks and of sessions share: the store of a case, a gate that it holds and lets go, the setup of its desk, and what that leaves.
#![tactic(auto)]

mod boards;
mod setups;

pub use boards::{Board, Post, Watch, reaches};
pub use setups::{CaseRuntime, Kept, Left, OfCase, SHORTER, gate_of, left_by, setup_of, store_of};
