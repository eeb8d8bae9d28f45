/// A change of a network. It may contain any numbers: the network judges them.
#[derive(Clone, Copy, Debug, PartialEq, Eq)]
pub enum Command {
    /// The arc gets this length, and stays open or closed.
    Set { arc: u64, length: u64 },
    /// Walks may no longer use the arc. Its length is kept.
    Close { arc: u64 },
    /// Walks may use the arc again, with the length that was kept.
    Reopen { arc: u64 },
    /// The node becomes a landmark.
    Mark { node: u64 },
    /// The node is no longer a landmark.
    Unmark { node: u64 },
    /// A new open arc of this length, from one node to another. It gets the number after that of the last arc.
    Lay { tail: u64, head: u64, length: u64 },
}
