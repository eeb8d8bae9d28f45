// Views that are wanted: tasks handed out and given up, and their views shown.
ghost use Rattle.std.specs.Prelude.{◌≡◌, None, Some, Ok, IfSome, IfOk, IfErr, OnOk, OnErr, MatchResult, option_map};
ghost use Rattle.std.specs.Bool.{Decides};
ghost use Rattle.std.proofs.Props.{props};
ghost use Rattle.roadnet.specs.Step.{after};
ghost use Rattle.keeper.specs.Parts.{or_out_of_memory, refusal_alone, result_map};
ghost use Rattle.machine.specs.Calls.{TakesTask, without_task, IsTask, RefusesView, Publishes};
ghost use Rattle.machine.specs.Machine.{network_at};

use crate::keeper::keepers::Keeper;
use crate::networks::carrying::copies;
use crate::networks::leading::lead_to;
use crate::networks::same::is_same;
use disk::Disk;
use roadnet::{Group, Network, OutOfMemory, Refusal};
use rows::View;
use shared_network::SharedNetwork;
use std::snapshot::Snapshot;
use std::sync::Arc;

/// A version whose view is wanted, with its network.
#[derive(Drop)]
pub struct Task {
    /// The version.
    pub version: u64,
    /// The network at it.
    pub network: Arc<Network>,
}

/// A version whose view is wanted, given by the groups that lead to it from a view. Contracts see its network; at run time there is none.
#[derive(Drop)]
pub struct GroupTask {
    /// The version.
    pub version: u64,
    /// The view that was shown when the task was taken.
    pub view: Arc<View>,
    /// The groups from its version to the task's.
    pub groups: Vec<Group>,
    /// The network at the task's version.
    pub network: Snapshot<Network>,
    ghost leads: { after view.value.network groups.items ≡ Some network.value } by { Prim.hlevel props },
}

impl<D: Disk> Keeper<D> {
    /// A task: the durable version with a copy of its network, of which the keeper keeps a share. It is then out, until a view of it is shown or it is
    /// given up. There is no task while one is out, or if the durable version is shown.
    ///
    /// The only error is lack of memory; then nothing has changed. The network is copied once.
    ///
    /// For a new keeper there is none, since its version is shown. After a flush of `Close { arc: 7 }` there is the task of version 1, in whose network arc
    /// 7 is closed. A second call, while it is out, gives none.
    pub fn take_task(&mut self) -> Result<Option<Task>, OutOfMemory>
        ensures step { TakesTask self.old.machine (or_out_of_memory (result_map (option_map (λ t. (t.version, t.network.value))) result)) self.new.machine }
        ensures disk { self.new.disk ≡ self.old.disk }
        ensures given { self.new.given ≡ self.old.given }
        ensures width { self.new.width ≡ self.old.width }
    {
        if self.task.is_some() || self.shown.version() == self.ledger.durable() {
            return Ok(None);
        }
        let Ok(network) = Arc::new(self.alloc, self.ledger.network().copy()?) else {
            return Err(OutOfMemory);
        };
        let Ok(shared) = Arc::try_clone(&network) else {
            return Err(OutOfMemory);
        };
        let version = self.ledger.durable();
        self.task = Some(version);
        self.shared = Some(shared);
        Ok(Some(Task { version, network }))
    }

    /// A task, as `take_task` takes it, given by the groups that lead to its network from that of the shown view. No network is copied, and there is no
    /// pass over its arcs: it takes a copy of each group from the shown version to the durable one.
    ///
    /// The only error is lack of memory; then nothing has changed.
    ///
    /// After flushes of `Close { arc: 7 }` and of `Set { arc: 8, length: 4 }`, while version 0 is shown, it is the task of version 2 with these two groups.
    pub fn take_groups(&mut self) -> Result<Option<GroupTask>, OutOfMemory>
        ensures step { TakesTask self.old.machine (or_out_of_memory (result_map (option_map (λ t. (t.version, t.network.value))) result)) self.new.machine }
        ensures shown { IfOk result (λ task. IfSome task (λ t. t.view.value.version ≡ self.old.machine.shown)) }
        ensures disk { self.new.disk ≡ self.old.disk }
        ensures given { self.new.given ≡ self.old.given }
        ensures width { self.new.width ≡ self.old.width }
    {
        if self.task.is_some() || self.shown.version() == self.ledger.durable() {
            return Ok(None);
        }
        let version = self.ledger.durable();
        let Ok(view) = Arc::try_clone(self.shown.view()) else {
            return Err(OutOfMemory);
        };
        let groups = copies(
            self.alloc,
            self.ledger.groups_between(view.version(), version),
        )?;
        let network = Snapshot::of(self.ledger.network());
        self.task = Some(version);
        self.shared = None;
        Ok(Some(GroupTask {
            version,
            view,
            groups,
            network,
        }))
    }

    /// The version of the task that is out.
    pub fn task(&self) -> Option<u64>
        ensures { result ≡ self.now.machine.task }
    {
        self.task
    }

    /// Ends the task of this version, if it is out. It takes no memory.
    pub fn give_up(&mut self, version: u64)
        ensures step { self.new.machine ≡ without_task self.old.machine version }
        ensures disk { self.new.disk ≡ self.old.disk }
        ensures given { self.new.given ≡ self.old.given }
        ensures width { self.new.width ≡ self.old.width }
    {
        if let Some(task) = self.task
            && task == version
        {
            self.task = None;
            self.shared = None;
        }
    }

    /// Whether this is the network of the task of this version, which is out. It is compared with the network with which the task was handed out; otherwise
    /// the groups from the shown version to the task's decide.
    fn is_of_task(&self, version: u64, network: &SharedNetwork) -> bool
        requires { self.now.machine.task ≡ Some version }
        ensures { Decides result (network_at self.now.machine version ≡ Some network.now) }
    {
        if let Some(shared) = &self.shared {
            return is_same(shared, network);
        }
        let shown = self.shown.view();
        let groups = self.ledger.groups_between(shown.version(), version);
        lead_to(shown.network(), groups, network)
    }

    /// Why `publish` of the view would be refused: 51 if no task is out, 52 if the view's version or network is not the task's, compared arc by arc. It
    /// takes no memory.
    pub fn may_publish(&self, view: &View) -> Result<(), Refusal>
        ensures { MatchResult result (λ _. IsTask self.now.machine view.now.version view.now.network)
            (RefusesView self.now.machine view.now.version view.now.network) }
    {
        let Some(task) = self.task else {
            return Err(Refusal::NoTask);
        };
        if task != view.version() || !self.is_of_task(task, view.network()) {
            return Err(Refusal::OtherNetwork);
        }
        Ok(())
    }

    /// Shows the view of the task that is out: answers are then given from it, and no task is out. Returns the shown version.
    ///
    /// If it is refused, as `may_publish` says, the view is handed back and nothing has changed. It takes no memory.
    ///
    /// With the task of version 1 out, the view of its network at version 1 is shown, and it returns 1. The view of version 0 is `OtherNetwork`. With no
    /// task out, each view is `NoTask`.
    pub fn publish(&mut self, view: Arc<View>) -> Result<u64, (Refusal, Arc<View>)>
        ensures step { Publishes self.old.machine view.value.version view.value.network (refusal_alone result) self.new.machine }
        ensures handed_back { IfErr result (λ refused. refused.1 ≡ view) }
        ensures disk { self.new.disk ≡ self.old.disk }
        ensures given { self.new.given ≡ self.old.given }
        ensures width { OnOk result (self.new.width ≡ view.value.delta) }
        ensures same_width { OnErr result (self.new.width ≡ self.old.width) }
    {
        if let Err(refusal) = self.may_publish(&view) {
            return Err((refusal, view));
        }
        Ok(self.publish_admitted(view))
    }

    /// Shows the view of the task, as `publish` does, if it is known to be right without a look at its arcs: `may_publish` has admitted it, or whoever
    /// built it says so. It takes no memory and cannot fail.
    pub fn publish_admitted(&mut self, view: Arc<View>) -> u64
        requires { IsTask self.old.machine view.value.version view.value.network }
        ensures step { Publishes self.old.machine view.value.version view.value.network (Ok result) self.new.machine }
        ensures disk { self.new.disk ≡ self.old.disk }
        ensures given { self.new.given ≡ self.old.given }
        ensures width { self.new.width ≡ view.value.delta }
    {
        let shown = view.version();
        self.task = None;
        self.shared = None;
        self.shown.show(view);
        shown
    }
}
