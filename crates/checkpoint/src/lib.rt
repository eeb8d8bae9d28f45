//! The checkpoints of a store: the ends of its arcs, its two slots, what the current one holds, and how the other one is written.
#![tactic(auto)]

mod arcs;
mod frozen;
mod heads;
mod laid;
mod numbers;
mod parts;
mod slot_pages;
mod slots;
mod words;
mod writing;

pub use arcs::read_arcs;
pub use frozen::{Frozen, FrozenNetwork};
pub use heads::choose;
pub use parts::part_of;
pub use slots::load;
pub use writing::NextCheckpoint;
