use roadnet::Group;
use rows::Reply;

/// A group of commands was accepted as this number. It is not acknowledged yet: a stop may still take it back.
#[derive(Debug, Drop)]
pub struct Ticket {
    /// The version that the group leads to.
    pub number: u64,
    pub group: Group,
}

/// The group of this number is durable: no later stop takes it back.
#[derive(Debug, Drop)]
pub struct Receipt {
    /// The version that the group leads to.
    pub number: u64,
    pub group: Group,
}

/// A reply, with the version in whose network it is right.
#[derive(Clone, Copy, Debug, PartialEq, Eq)]
pub struct Answer {
    pub version: u64,
    pub reply: Reply,
}
