//! The groups of a commit that failed. Only clauses use them.
ghost use Rattle.std.specs.Prelude.{◌≡◌, List, [], Err, if◌then◌else◌};
ghost use Rattle.std.specs.Bool.{Decides};
ghost use Rattle.std.specs.Borrow.{ftrue};
ghost use Rattle.roadnet.specs.declared.commands.Command.{Command as AnyCommand};
ghost use Rattle.roadnet.specs.declared.refusals.Refusal.TheVariants.{Device as device};

use roadnet::{Group, Refusal};
use std::marker::Model;

/// Whether the disk failed in a call with this result.
pub(crate) fn has_failed<T>(told: &Result<T, Refusal>) -> bool
    ensures { Decides result (told.now ≡ Err device) }
{
    matches!(told, Err(Refusal::Device))
}

/// A commit that was made.
#[derive(Clone, Copy, Drop)]
pub(crate) struct Made<'a> {
    pub(crate) groups: &'a [Group],
    /// The disk failed in it.
    pub(crate) failed: bool,
}

/// The groups in flight. They take no bytes, and their methods do nothing at run time.
#[derive(Drop)]
pub(crate) struct InFlight {
    pub ghost groups: { List (List AnyCommand) },
}

impl Model for InFlight {
    ghost also_owns = { λ _. ftrue };
}

impl InFlight {
    /// No groups.
    pub(crate) fn none() -> InFlight
        ensures { result.groups ≡ [] }
    {
        InFlight {}
    }

    /// The groups in flight after this commit: its groups if the disk failed in it, otherwise those that were in flight.
    pub(crate) fn after(&self, _made: &Made<'_>) -> InFlight
        ensures { result.groups ≡ (if _made.now.failed then _made.now.groups.now else self.now.groups) }
    {
        InFlight {}
    }
}
