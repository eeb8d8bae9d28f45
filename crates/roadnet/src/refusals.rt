ghost use Rattle.std.specs.Prelude.{◌≡◌};

use std::alloc::AllocError;
use thiserror::Error;

/// Why a call was refused. Each refusal has a number, and is printed as `CODE Name`.
#[derive(Clone, Copy, Debug, PartialEq, Eq, Error)]
pub enum Refusal {
    /// A number is not in its range.
    #[error("5 NumberRange")]
    NumberRange,
    /// There are more arcs than a network may have. Or a room is below the number of arcs, or above the most that there may be.
    #[error("9 TooLarge")]
    TooLarge,
    /// The reader failed.
    #[error("10 Read")]
    Read,
    /// There was no memory.
    #[error("11 OutOfMemory")]
    OutOfMemory,
    /// The writer failed.
    #[error("12 Write")]
    Write,
    /// A group has no command, or more than 253.
    #[error("13 GroupSize")]
    GroupSize,
    /// The network has no arc of this number.
    #[error("20 NoSuchArc")]
    NoSuchArc,
    /// A length is above 2147483647.
    #[error("21 LengthRange")]
    LengthRange,
    /// The arc is closed already.
    #[error("22 AlreadyClosed")]
    AlreadyClosed,
    /// The arc is open already.
    #[error("23 AlreadyOpen")]
    AlreadyOpen,
    /// The network has no such node.
    #[error("24 NoSuchNode")]
    NoSuchNode,
    /// The node is a landmark already.
    #[error("25 AlreadyLandmark")]
    AlreadyLandmark,
    /// The node is not a landmark.
    #[error("26 NotALandmark")]
    NotALandmark,
    /// There are 1,000 landmarks already, or more are given.
    #[error("27 TooManyLandmarks")]
    TooManyLandmarks,
    /// The network has no room for another arc.
    #[error("29 NoRoom")]
    NoRoom,
    /// The version would pass 2^48.
    #[error("28 VersionsExhausted")]
    VersionsExhausted,
    /// The file is not a store.
    #[error("40 NotAStore")]
    NotAStore,
    /// The store has another format.
    #[error("41 WrongFormat")]
    WrongFormat,
    /// This page of the store is not a valid page.
    #[error("42 Damaged page {page}")]
    Damaged { page: u64 },
    /// The disk failed in this call.
    #[error("43 Device")]
    Device,
    /// No page of the journal is free before a checkpoint.
    #[error("44 JournalFull")]
    JournalFull,
    /// The disk failed before: the store has to be opened again.
    #[error("45 Broken")]
    Broken,
    /// The disk is not empty.
    #[error("46 NotEmpty")]
    NotEmpty,
    /// With these commands, more would be pending than may be.
    #[error("50 QueueFull")]
    QueueFull,
    /// No task has been handed out.
    #[error("51 NoTask")]
    NoTask,
    /// The view is not of the task's network.
    #[error("52 OtherNetwork")]
    OtherNetwork,
    /// No command is pending.
    #[error("53 NothingPending")]
    NothingPending,
    /// The command is not durable yet.
    #[error("54 NotYet")]
    NotYet,
    /// There are as many readers as there may be.
    #[error("60 NoReaderPlace")]
    NoReaderPlace,
    /// The desk takes no more calls.
    #[error("61 Closed")]
    Closed,
    /// With these commands, more would have been accepted than one life may have.
    #[error("62 HistoryFull")]
    HistoryFull,
    /// The system could not start a thread.
    #[error("63 NoThread")]
    NoThread,
}

impl Refusal {
    ghost use Rattle.roadnet.specs.Numbers.{number_of};

    /// The number by which the refusal is printed.
    pub fn number(self) -> u8
        ensures { result ≡ number_of self }
    {
        match self {
            Refusal::NumberRange => 5,
            Refusal::TooLarge => 9,
            Refusal::Read => 10,
            Refusal::OutOfMemory => 11,
            Refusal::Write => 12,
            Refusal::GroupSize => 13,
            Refusal::NoSuchArc => 20,
            Refusal::LengthRange => 21,
            Refusal::AlreadyClosed => 22,
            Refusal::AlreadyOpen => 23,
            Refusal::NoSuchNode => 24,
            Refusal::AlreadyLandmark => 25,
            Refusal::NotALandmark => 26,
            Refusal::TooManyLandmarks => 27,
            Refusal::VersionsExhausted => 28,
            Refusal::NoRoom => 29,
            Refusal::NotAStore => 40,
            Refusal::WrongFormat => 41,
            Refusal::Damaged { page: _ } => 42,
            Refusal::Device => 43,
            Refusal::JournalFull => 44,
            Refusal::Broken => 45,
            Refusal::NotEmpty => 46,
            Refusal::QueueFull => 50,
            Refusal::NoTask => 51,
            Refusal::OtherNetwork => 52,
            Refusal::NothingPending => 53,
            Refusal::NotYet => 54,
            Refusal::NoReaderPlace => 60,
            Refusal::Closed => 61,
            Refusal::HistoryFull => 62,
            Refusal::NoThread => 63,
        }
    }
}

/// There was no memory: the error of calls that have no other.
#[derive(Clone, Copy, Debug, PartialEq, Eq, Error)]
#[error("11 OutOfMemory")]
pub struct OutOfMemory;

impl From<AllocError> for OutOfMemory {
    fn from(_error: AllocError) -> OutOfMemory {
        OutOfMemory
    }
}

impl From<AllocError> for Refusal {
    ghost use Rattle.roadnet.specs.declared.refusals.Refusal.TheVariants.{OutOfMemory as out_of_memory};

    ghost from_gives = { λ _ refusal. refusal ≡ out_of_memory };

    fn from(_error: AllocError) -> Refusal {
        Refusal::OutOfMemory
    }
}

impl From<OutOfMemory> for Refusal {
    ghost use Rattle.roadnet.specs.declared.refusals.Refusal.TheVariants.{OutOfMemory as out_of_memory};

    ghost from_gives = { λ _ refusal. refusal ≡ out_of_memory };

    fn from(_error: OutOfMemory) -> Refusal {
        Refusal::OutOfMemory
    }
}
