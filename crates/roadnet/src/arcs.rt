/// A directed arc of a road network, 16 bytes. Parallel arcs, loops and length 0 are allowed.
#[derive(Clone, Copy, Debug, PartialEq, Eq)]
pub struct RoadArc {
    /// The node that it leaves, counted from 1.
    pub tail: u32,
    /// The node that it reaches, counted from 1.
    pub head: u32,
    /// Its length, 0 to 2147483647. A closed arc keeps it.
    pub length: u32,
    /// Whether walks may take it.
    pub opened: bool,
}
