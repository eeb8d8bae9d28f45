//! A road network with landmarks, the commands that change it, and what a distance in it is.
#![tactic(auto)]

mod arcs;
mod ascending;
mod batches;
mod commands;
mod flags;
mod groups;
mod judging;
mod laws;
mod networks;
mod outlines;
mod probes;
mod refusals;
mod reversal;
mod undoing;

pub use arcs::RoadArc;
pub use ascending::{add_member, is_member, remove_member};
pub use batches::Undo;
pub use commands::Command;
pub use groups::{Group, MOST_OF_GROUP};
pub use laws::{laws_of_batches, laws_of_refusals, laws_of_steps, laws_of_walks};
pub use networks::{LONGEST_ARC, MOST_ARCS, MOST_LANDMARKS, MOST_NODES, Network};
pub use outlines::Outline;
pub use probes::{Probed, admit_all};
pub use refusals::{OutOfMemory, Refusal};
pub use reversal::laws_of_reversal;
