//! Routes, and replies to questions for one.

use roadnet::Refusal;

/// The arcs of a shortest walk.
#[derive(Debug, Drop)]
pub struct Route {
    /// The sum of their lengths.
    pub length: u64,
    /// Their numbers, in the order of the walk.
    pub arcs: Vec<u32>,
}

/// A reply to a question for a route.
#[derive(Debug, Drop)]
pub enum RouteReply {
    /// A shortest walk that visits no node twice. It has no arc if the source is the target.
    Arcs(Route),
    /// There is no walk.
    NoWalk,
    /// 24 for a number that is not a node's.
    Refused(Refusal),
}
