// A task outside the lock: its network, and the view that is built of it.
ghost use Rattle.std.specs.Prelude.{◌≡◌, IfOk};
ghost use Rattle.roadnet.specs.Ends.{KeepsEnds};
ghost use Rattle.snapshot.specs.Blocks.{DiffersOnlyAt};

use history::Front;
use keeper::GroupTask;
use roadnet::OutOfMemory;
use rows::View;
use shared_network::SharedNetwork;
use snapshot::changed_arcs;
use std::alloc::Global;
use std::marker::Model;
use std::sync::Arc;

/// A version of a desk whose view is wanted. It is built outside the lock: its network is that of the view that was shown, with the groups since. Contracts
/// see the desk, the version, the network and that view.
#[derive(Drop)]
pub struct Work {
    pub(crate) task: GroupTask,
    /// The groups up to its version.
    pub(crate) groups: Front,
}

impl Model for Work {
    ghost use Rattle.office.specs.Works.{Wanted, IsWanted};

    ghost Value = { Wanted };

    ghost view = { λ w. record { origin = w.groups.origin; version = w.task.version; network = w.task.network.value; before = w.task.view.value } };

    ghost invariant = { λ w. IsWanted w.groups w.task.version w.task.network.value };
}

/// The view of a work: its network and version are the work's, which is a fact of the type. Only `Work::built` makes it.
#[derive(Drop)]
pub struct Built {
    pub(crate) view: Arc<View>,
    pub(crate) groups: Front,
}

impl Model for Built {
    ghost use Rattle.published.specs.Showing.{Showing};
    ghost use Rattle.office.specs.Works.{IsWanted};

    ghost Value = { Showing };

    ghost view = { λ b. record { shown = b.groups; view = b.view.value } };

    ghost invariant = { λ b. IsWanted b.groups b.view.value.version b.view.value.network };
}

impl Work {
    /// The version.
    pub fn version(&self) -> u64
        ensures { result ≡ self.now.version }
    {
        self.task.version
    }

    /// The view that was shown when the task was taken.
    pub fn shown(&self) -> &View
        ensures { result.now ≡ self.now.before }
    {
        &self.task.view
    }

    /// The view that was shown when the task was taken: all that is left of the work then. It takes no memory.
    pub fn into_shown(self) -> Arc<View>
        ensures { result.value ≡ self.before }
    {
        self.task.view
    }

    /// The network at the version: the shown view's after the groups since, with which it shares what they do not change. The only error is lack of memory.
    ///
    /// If version 0 of `examples/six.gr` is shown and `Close { arc: 7 }` is durable, arc 7 is closed in it.
    pub fn network(&self, alloc: Global) -> Result<SharedNetwork, OutOfMemory>
        ensures network { IfOk result (λ network. network ≡ self.now.network) }
        // Whatever the commands, arcs keep their ends.
        ensures ends { IfOk result (λ network. KeepsEnds self.now.before.network network) }
    {
        match self.task.view.network().after(alloc, &self.task.groups) {
            Ok(network) => Ok(network),
            Err(_) => Err(OutOfMemory),
        }
    }

    /// The numbers of all arcs that are not the same in the network at the version as in the shown view's, and of those that are new. The only error is lack
    /// of memory.
    pub fn changed(&self, alloc: Global, newer: &SharedNetwork) -> Result<Vec<u32>, OutOfMemory>
        requires { newer.now ≡ self.now.network }
        ensures { IfOk result (λ numbers. DiffersOnlyAt numbers.items self.now.before.network newer.now) }
    {
        changed_arcs(alloc, self.task.view.network(), newer, &self.task.groups)
    }

    /// The view, which is of the work's network and version, as `show` takes it. It takes no memory.
    pub fn built(&self, view: Arc<View>) -> Built
        requires version { view.value.version ≡ self.now.version }
        requires network { view.value.network ≡ self.now.network }
        ensures origin { result.shown.origin ≡ self.now.origin }
        ensures view { result.view ≡ view.value }
    {
        Built {
            view,
            groups: self.groups.again(),
        }
    }
}
