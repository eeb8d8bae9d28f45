// What a thread's attempts come to, how long it rests after one, and when it gives up.
ghost use Rattle.std.specs.Prelude.{◌≡◌};
ghost use Rattle.desk.specs.Turns.{attempt_of, misses_after, goes_on_after, rest_after};

use roadnet::Refusal;

/// After how many attempts in a row that found no memory a thread gives up.
const MOST_MISSES: u32 = 3;

/// How many milliseconds a thread rests after an attempt that found no memory, if the one before it did find some.
const FIRST_REST: u64 = 10;

/// How many milliseconds it rests after each further one.
const LATER_REST: u64 = 100;

/// The outcome of an attempt.
#[derive(Clone, Copy, Debug, PartialEq, Eq)]
pub(crate) enum Attempt {
    /// It is done, or there was nothing to do.
    Done,
    /// No memory was found, and nothing has changed.
    NoMemory,
    /// The journal had no free page, and nothing has changed: a step of a checkpoint comes first.
    Blocked,
    /// The disk has failed: there is nothing left to do.
    Failed,
}

/// The outcome of a call that was refused in this way.
pub(crate) fn attempt_of(refusal: Refusal) -> Attempt
    ensures { result ≡ attempt_of refusal }
{
    match refusal {
        Refusal::OutOfMemory => Attempt::NoMemory,
        Refusal::JournalFull => Attempt::Blocked,
        Refusal::Device | Refusal::Broken => Attempt::Failed,
        _ => Attempt::Done,
    }
}

/// How many attempts of a thread in a row have found no memory.
#[derive(Clone, Copy)]
pub(crate) struct Misses {
    count: u32,
}

impl Misses {
    /// No attempt has been made.
    pub(crate) fn none() -> Misses
        ensures { result.count ≡ 0 }
    {
        Misses { count: 0 }
    }

    /// Counts an attempt, and returns whether the thread goes on. A blocked attempt counts for nothing: the step after it may find no memory either, and
    /// then the thread is to end after three such steps.
    pub(crate) fn goes_on(&mut self, attempt: Attempt) -> bool
        ensures count { self.new.count ≡ misses_after self.old.count attempt }
        ensures goes_on { result ≡ goes_on_after self.old.count attempt }
    {
        match attempt {
            Attempt::Done => {
                self.count = 0;
                true
            }
            Attempt::NoMemory => {
                self.count = self.count.saturating_add(1);
                self.count < MOST_MISSES
            }
            Attempt::Blocked => true,
            Attempt::Failed => false,
        }
    }

    /// How many milliseconds a thread rests after this attempt, which is counted. The thread survives a shorter lack of memory.
    pub(crate) fn rest(&self, attempt: Attempt) -> u64
        ensures { result ≡ rest_after self.now.count attempt }
    {
        match attempt {
            Attempt::NoMemory => {
                if self.count < 2 {
                    FIRST_REST
                } else {
                    LATER_REST
                }
            }
            _ => 0,
        }
    }
}
