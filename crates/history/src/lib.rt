//! The history of a desk: the list of the groups that it accepted, which only grows and is closed once. The list exists only in proofs. What threads carry
//! is a front of it, which may be copied and compared.
#![tactic(auto)]

mod claims;
mod entries;
mod fronts;
mod histories;
mod pens;
mod roots;
mod rules;

pub use claims::{Claim, Settled};
pub use entries::{Base, Entry};
pub use fronts::Front;
pub use histories::{History, Whole};
