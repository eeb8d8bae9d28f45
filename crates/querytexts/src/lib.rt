//! Queries of a text's network: one, the pairs of another text, the pairs between the nodes of two texts, all nodes within a length of a node, and routes.
#![tactic(auto)]

mod batch;
mod once;
mod reaches;
mod tables;
mod walks;

pub use batch::{answer_by, answer_pairs, batch_text};
pub use once::once_text;
pub use reaches::{Reach, reach_text};
pub use tables::{answer_table, table_text};
pub use walks::{answer_routes, route_text};
