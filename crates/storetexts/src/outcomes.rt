// The outcomes of groups.
ghost use Rattle.std.specs.Prelude.{◌≡◌};
ghost use Rattle.storetexts.specs.Outcomes.{reply_of};

use machine::Replied;
use roadnet::Refusal;

/// The outcome of a group.
#[derive(Clone, Copy, Debug, PartialEq, Eq)]
pub enum Outcome {
    /// It was accepted as this number, the version that it leads to.
    Accepted { number: u64 },
    /// It was refused, and has changed nothing.
    Refused { refusal: Refusal },
}

/// How the outcome is reported, once the group is durable: as a durable version, or as a refusal.
pub(crate) fn reply_of(outcome: Outcome) -> Replied
    ensures { result ≡ reply_of outcome }
{
    match outcome {
        Outcome::Accepted { number } => Replied::Durable { version: number },
        Outcome::Refused { refusal } => Replied::Refused { refusal },
    }
}
