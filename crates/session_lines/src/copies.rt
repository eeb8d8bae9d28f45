//! Whoever makes copies of what a desk shows, and whether sessions may change it.
ghost use Rattle.std.specs.Prelude.{◌≡◌, true, IfErr, OnOk};
ghost use Rattle.session_lines.specs.Names.{is_name};
ghost use Rattle.session_lines.specs.Copying.{IsUnmade, asking_alone, no_copying};

use roadnet::Refusal;
use shared_network::SharedNetwork;
use std::alloc::Global;

/// Whoever makes copies of a network while its desk is served, each a store of its own; and whether the sessions for which it makes them may change the
/// network.
///
/// The thread of the session that asks calls it, while no lock of the desk is held. Several may call it at once.
pub trait Copies {
    ghost use Rattle.session_lines.specs.Copying.{Copying};

    /// Whether commands are carried out, whether copies are made at all, and what a copy of a name is.
    ghost copying: { Self → Copying };

    /// Whether commands are carried out. Otherwise the sessions may only ask.
    fn may_change(&self) -> bool
        ensures { result ≡ (copying self.now).changes };

    /// Whether copies are made at all.
    fn are_made(&self) -> bool
        ensures { result ≡ (copying self.now).allowed };

    /// Makes a copy of the network at this version, under a name of 1 to 64 letters, digits, `-` and `_`. It fails if something of this name exists (46),
    /// if the copy cannot be made (10), if the device fails (43), and for lack of memory (11). An implementation that makes no copies needs no body of its
    /// own.
    fn copy(
        &self,
        _alloc: Global,
        name: &[u8],
        network: &SharedNetwork,
        version: u64,
    ) -> Result<(), Refusal>
        requires { is_name name.now ≡ true }
        ensures made { OnOk result ((copying self.now).made name.now network.now version) }
        ensures refused { IfErr result IsUnmade }
    {
        Err(Refusal::Read)
    }
}

/// No copies are made.
#[derive(Clone, Copy)]
pub struct NoCopies;

impl Copies for NoCopies {
    ghost copying = { λ _. no_copying };

    fn may_change(&self) -> bool {
        true
    }

    fn are_made(&self) -> bool {
        false
    }
}

/// The sessions may only ask: no command is carried out, and no copies are made.
#[derive(Clone, Copy)]
pub struct AskingAlone;

impl Copies for AskingAlone {
    ghost copying = { λ _. asking_alone };

    fn may_change(&self) -> bool {
        false
    }

    fn are_made(&self) -> bool {
        false
    }
}
