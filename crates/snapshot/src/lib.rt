//! The open arcs of a road network, grouped by the node that they leave, for searches.
#![tactic(auto)]

mod appending;
mod blocks;
mod groups;
mod index;
mod legs;
mod numbers;
mod placing;
mod regrouping;
mod roads;
mod tails;
mod weighing;

pub use groups::{Snapshot, default_delta};
pub use index::ArcIndex;
pub use legs::{Leg, Part};
pub use numbers::changed_arcs;
pub use roads::Roads;
pub use tails::tails_of;
