//! Queries of a road network, and the right replies to them.
#![tactic(auto)]

mod answers;
mod askers;
mod asking;
mod backs;
mod batches;
mod bounds;
mod cached;
mod ends;
mod guides;
mod landmark_replies;
mod landmark_rows;
mod laws;
mod nearby;
mod onward;
mod pinned;
mod places;
mod queries;
mod ran;
mod searches;
mod side_by_side;
mod sights;
mod tables;
mod turning;
mod views;

pub use answers::{answer_plain, distance_in};
pub use askers::Asker;
pub use backs::{numbered_back, numbered_back_after};
pub use ends::PairEnds;
pub use guides::{Landmarks, laws_of_potentials};
pub use kept_rows::{DEFAULT_ROWS, RowCache};
pub use landmark_rows::Row;
pub use laws::{laws_of_bounds, laws_of_replies};
pub use nearby::Near;
pub use pinned::Pinned;
pub use queries::{Query, Reply};
pub use ran::Ran;
pub use searches::Searches;
pub use sights::Sight;
pub use turning::{WIDEST, turned_groups};
pub use views::View;
