//! One phase of a search: the requests that the arcs of a list of nodes make of the nodes that they reach.
#![tactic(auto)]

mod crew;
mod known;
mod permits;
mod shared;
mod team;
mod tentative;

pub use crew::{CHUNK, Crew};
pub use known::Known;
pub use permits::Permit;
pub use shared::SharedTentative;
pub use team::{Solo, Team, requests_by};
pub use tentative::Tentative;
