use crate::calls::Answer;
use crate::pages::StepPages;
use roadnet::{Group, Refusal};
use rows::Query;

/// An event that writes to the disk, so that a stop can come within it.
#[derive(Clone, Copy, Debug, PartialEq, Eq)]
pub enum Writing {
    /// The first pending groups are made durable.
    Flush,
    /// Steps of 64 pages until the checkpoint is done.
    Checkpoint,
    /// A step of a checkpoint.
    Step { pages: StepPages },
}

/// An event of a script: one variant for each kind of line, with its numbers.
///
/// `P` is the type of a pick, which says what a stop makes of a byte that was written since the last sync.
#[derive(Debug, Drop)]
pub enum Event<P> {
    /// A group is submitted.
    Submit {
        group: Group,
    },
    /// The first pending groups are made durable.
    Flush,
    /// Steps of 64 pages until the checkpoint is done.
    Checkpoint,
    /// A step of a checkpoint.
    CheckpointStep {
        pages: StepPages,
    },
    /// A task is taken, and its view is built and set aside.
    Task,
    /// The view that was set aside is shown.
    Publish,
    /// A query is answered from the shown view.
    Ask {
        query: Query,
    },
    /// A stop between two calls, and then an opening.
    Stop,
    /// A stop within a write or sync of the event, and then an opening. `call` is the number of the write or sync, counted from 1. If the event makes
    /// fewer, the stop comes after it. The i-th of the bytes written since the last sync, in ascending order and i from 0, takes the pick `i mod
    /// picks.len()`.
    StopWithin {
        call: u64,
        picks: Vec<P>,
        writing: Writing,
    },
}

/// The reply to an event: one variant for each form of output, with its numbers.
#[derive(Clone, Copy, Debug, PartialEq, Eq)]
pub enum Replied {
    /// The group was accepted as this number, and is not acknowledged yet.
    Accepted { number: u64 },
    /// After a flush: the versions up to this one are durable. After a checkpoint: the version that it holds.
    Durable { version: u64 },
    /// After a step of a checkpoint: some of its pages are not written yet.
    Stepped,
    /// A task of this version was taken.
    Task { version: u64 },
    /// This version is shown.
    Shown { version: u64 },
    /// The query's reply, with the version in whose network it is right.
    Answered { query: Query, answer: Answer },
    /// The event was refused.
    Refused { refusal: Refusal },
    /// Stopped, and opened again at this version.
    Opened { version: u64 },
    /// Stopped, and not opened again.
    Stopped,
}
