// What a keeper says of itself beyond what its ledger does. None of these calls takes memory.
ghost use Rattle.std.specs.Prelude.{◌≡◌, Some};
ghost use Rattle.machine.specs.Machine.{network_at};
ghost use Rattle.store.specs.State.{CameTidy};
ghost use Rattle.keeper.specs.Keeping.{Holds};

use crate::keeper::keepers::Keeper;
use disk::Disk;
use rows::View;
use std::sync::Arc;

impl<D: Disk> Keeper<D> {
    /// The versions up to this one are durable, as `Ledger::durable` says. That is a fact of the keeper, so whoever shares one under a lock needs no premise.
    pub fn durable(&self) -> u64
        ensures version { result ≡ self.now.machine.durable }
        ensures honest { CameTidy D.honest D.content self.now.given → D.honest self.now.disk }
        ensures holds { CameTidy D.honest D.content self.now.given → Holds (D.content self.now.disk) (D.left self.now.disk) self.now.machine }
    {
        self.ledger.durable()
    }

    /// The version from which answers are given.
    pub fn shown(&self) -> u64
        ensures { result ≡ self.now.machine.shown }
    {
        self.shown.version()
    }

    /// The view from which answers are given: of the shown version and of the network at it.
    pub fn view(&self) -> &Arc<View>
        ensures version { result.now.value.version ≡ self.now.machine.shown }
        ensures network { network_at self.now.machine self.now.machine.shown ≡ Some result.now.value.network }
        ensures width { result.now.value.delta ≡ self.now.width }
    {
        self.shown.view()
    }
}
