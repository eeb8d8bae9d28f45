/// What became of arcs and landmarks when a stored network was brought to a new map. All arcs of the map are kept, added or in doubt.
#[derive(Clone, Copy, Debug, PartialEq, Eq)]
pub struct Counts {
    /// Arcs of the map with as many parallel arcs in the stored network as in the map.
    pub kept: u64,
    /// Arcs of the map whose ends no stored arc has.
    pub added: u64,
    /// Stored arcs whose ends no arc of the map has.
    pub gone: u64,
    /// Arcs of the map with parallel arcs in the stored network, but not as many as in the map.
    pub doubtful: u64,
    /// Landmarks of the stored network that are not nodes of the map.
    pub landmarks_gone: u64,
}
