ghost use Rattle.std.specs.Prelude.{◌≡◌, Err};
ghost use Rattle.std.specs.Bool.{Decides};
ghost use Rattle.roadnet.specs.declared.refusals.Refusal.TheVariants.{Device as device};

use disk::Disk;
use roadnet::{Group, Network, Outline, Refusal};
use std::marker::Model;
use std::snapshot::Snapshot;
use store::Store;

/// The ledger of a store: the groups of commands accepted since it was opened, of which the first are durable. It computes no row and shows nothing.
///
/// Beyond the store with its network it takes 1 byte an arc and 4 a landmark, for the outline of the network by which commands are judged; 40 bytes a group
/// of this life; and 32 a command in a group of two or more.
#[derive(Drop)]
pub struct Ledger<D: Disk> {
    pub(crate) store: Store<D>,
    /// The network and version that the store was opened with.
    pub(crate) base: Snapshot<Network>,
    pub(crate) opened: u64,
    /// The groups accepted since, in order, and the outline of the network after them.
    pub(crate) history: Vec<Group>,
    pub(crate) accepted: Outline,
    /// How many commands these groups have, and how many of these are not durable.
    pub(crate) of_life: u64,
    pub(crate) pending: u64,
    /// A write failed: the store takes no more writes before it is opened again.
    pub(crate) broken: bool,
    /// How many groups the last write had. If it failed, they are in flight.
    pub(crate) written: Snapshot<usize>,
}

impl<D: Disk> Model for Ledger<D> {
    ghost use Rattle.std.specs.Prelude.{◌≡◌, None};
    ghost use Rattle.roadnet.specs.Outlines.{outline_of};
    ghost use Rattle.store.specs.State.{CameTidy};
    ghost use Rattle.machine.specs.Machine.{pending as pending_in, of_life as of_life_in};
    ghost use Rattle.machine.specs.Keeping.{IsKept};
    ghost use Rattle.keeper.specs.Keeping.{LedgerState, Holds, latest_network, machine_of};

    ghost Value = { LedgerState D };

    ghost view = { λ k. record {
      machine = machine_of k.store k.base.value k.opened k.history.items k.opened k.broken k.written.value None;
      disk = k.store.disk;
      given = k.store.given;
    } };

    ghost invariant = { λ k.
        let m = machine_of k.store k.base.value k.opened k.history.items k.opened k.broken k.written.value None in
        IsKept m (latest_network m) k.store.network k.base.value None
        × (k.broken ≡ k.store.broken)
        × (CameTidy D.honest D.content k.store.given → D.honest k.store.disk × Holds (D.content k.store.disk) (D.left k.store.disk) m)
        × (k.accepted ≡ outline_of (latest_network m))
        × (k.of_life ≡ of_life_in m)
        × (k.pending ≡ pending_in m) };
}

/// Whether the disk failed in a write with this result.
pub(crate) fn has_failed<T>(written: &Result<T, Refusal>) -> bool
    ensures { Decides result (written.now ≡ Err device) }
{
    matches!(written, Err(Refusal::Device))
}
