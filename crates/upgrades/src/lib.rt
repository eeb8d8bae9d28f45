//! A stored network brought to a new map of its roads, so that the changes made in it stay.
#![tactic(auto)]

mod counterparts;
mod counts;
mod laws;
mod maps;
mod ordered;
mod renewing;
mod upgrading;

pub use counts::Counts;
pub use laws::laws_of_upgrades;
pub use upgrading::upgraded;
