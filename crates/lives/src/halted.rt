// A run between two lives.
ghost use Rattle.std.specs.Option.{ForSome};
ghost use Rattle.rows.specs.Kept.{IsWidth};

use disk::{Disk, Stoppable};
use machine::Replied;
use roadnet::Group;

/// A run whose disk is stopped.
#[derive(Drop)]
pub(crate) struct Halted<D: Stoppable> {
    pub(crate) history: Vec<Group>,
    pub(crate) replies: Vec<Replied>,
    /// The groups of the life that ended.
    pub(crate) groups: Vec<Group>,
    /// The version that it was opened at, and the one that was durable.
    pub(crate) opened: u64,
    pub(crate) durable: u64,
    pub(crate) disk: D,
    /// The width that was given, for the following lives.
    pub(crate) delta: Option<u32>,
    ghost width: { ForSome delta IsWidth },
}
