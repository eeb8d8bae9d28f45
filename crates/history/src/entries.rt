use logbook::Pen;
use roadnet::{Group, Network};
use std::snapshot::Snapshot;

/// The network and version with which a desk was opened, as contracts see them.
#[derive(Drop)]
pub struct Base {
    pub network: Snapshot<Network>,
    pub version: u64,
}

/// What is written into a history.
#[derive(Drop)]
pub enum Entry {
    /// The desk was opened.
    Opened { base: Base },
    /// The group was accepted.
    Accepted { group: Snapshot<Group> },
    /// The groups up to this number are acknowledged.
    Acknowledged { number: u64 },
    /// No group is accepted any more.
    Closed,
}

/// An entry in a book, as contracts see it: with the pen that wrote it, and the pen that writes the next one.
#[derive(Drop)]
pub struct Link {
    pub entry: Entry,
    pub pen: Snapshot<Pen>,
    pub following: Snapshot<Pen>,
}
