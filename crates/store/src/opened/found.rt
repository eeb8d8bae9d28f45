use pages::{Header, Slot};
use roadnet::Network;

/// Where a store stands in its file: what opening finds, and what each call keeps.
#[derive(Drop)]
pub struct Found {
    pub header: Header,
    /// The current slot, and its epoch.
    pub slot: Slot,
    pub epoch: u64,
    pub network: Network,
    pub version: u64,
    /// The sequence of the journal page that is written next.
    pub next_sequence: u64,
    /// How many journal pages follow the current slot.
    pub unchecked: u32,
}
