//! The arcs of shortest walks in a road network.
#![tactic(auto)]

mod answers;
mod laws;
mod paths;
mod replies;

pub use answers::answer_route;
pub use laws::laws_of_routes;
pub use replies::{Route, RouteReply};
