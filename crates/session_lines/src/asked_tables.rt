//! What a line `table` asks for.
ghost use Rattle.std.specs.Prelude.{◌+◌, ◌≤◌, length};

/// The lengths of all pairs of its sources and its targets. It takes 8 bytes a number.
#[derive(Drop)]
pub struct Table {
    /// All numbers of the line: the number of sources, the number of targets, the sources, and the targets.
    pub numbers: Vec<u64>,
    /// How many sources.
    pub sources: usize,
    ghost fits: { sources + 2 ≤ length numbers.items },
}
