//! The texts that list nodes, or pairs of nodes, of a network.

pub(crate) mod landmarks;
mod listed;
pub(crate) mod nodes;
pub(crate) mod pairs;
