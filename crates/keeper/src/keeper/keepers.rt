use crate::ledger::ledgers::Ledger;
use disk::Disk;
use roadnet::Network;
use rows::Sight;
use std::alloc::Global;
use std::marker::Model;
use std::ops::Deref;
use std::sync::Arc;

/// The keeper of a store: the ledger of the commands accepted since it was opened, and the view from which answers are given. It is plain data: whoever
/// owns it may call it. It lends its ledger, so it offers the ledger's calls too.
///
/// It takes what its ledger takes, 4 or 8 bytes a node for each of up to 16 rows, and 14 to 27 bytes a node that one search leaves to the next. It has no
/// network of its own: that of a task with a network is shared with whoever took it, until the task is no longer out.
#[derive(Drop)]
pub struct Keeper<D: Disk> {
    pub(crate) alloc: Global,
    pub(crate) ledger: Ledger<D>,
    pub(crate) shown: Sight,
    /// The version of the task that is out.
    pub(crate) task: Option<u64>,
    /// The network with which this task was handed out, if there was one.
    pub(crate) shared: Option<Arc<Network>>,
}

impl<D: Disk> Model for Keeper<D> {
    ghost use Rattle.std.specs.Prelude.{option_map};
    ghost use Rattle.keeper.specs.Keeping.{Keeping, IsViewed, with_views};

    ghost Value = { Keeping D };

    ghost view = { λ k. record {
      machine = with_views k.ledger.machine k.shown.version k.task;
      disk = k.ledger.disk;
      width = k.shown.delta;
      given = k.ledger.given;
    } };

    ghost invariant = { λ k.
        let m = with_views k.ledger.machine k.shown.version k.task in
        IsViewed m k.shown.network (option_map (λ shared. shared.value) k.shared) };
}

impl<D: Disk> Deref for Keeper<D> {
    type Target = Ledger<D>;

    ghost use Rattle.std.specs.Prelude.{◌≡◌};
    ghost use Rattle.keeper.specs.Keeping.{ledger_of};

    ghost deref_gives = { λ keeper ledger. ledger ≡ ledger_of keeper };

    fn deref(&self) -> &Ledger<D> {
        self.ledger.shows_nothing();
        &self.ledger
    }
}
