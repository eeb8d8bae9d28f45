// Tasks, and their views shown.
ghost use Rattle.std.specs.Prelude.{◌≡◌, ◌≢◌, Ok, IfSome, IfOk, IfErr, OnOk, OnErr, MatchResult, option_map, []};
ghost use Rattle.roadnet.specs.declared.refusals.Refusal.TheVariants.{NoReaderPlace as no_reader_place, OutOfMemory as out_of_memory};
ghost use Rattle.machine.specs.Machine.{groups_to};
ghost use Rattle.keeper.specs.Parts.{or_out_of_memory, result_map};
ghost use Rattle.machine.specs.Calls.{TakesTask, without_task, IsTask, RefusesView, Publishes};

use crate::naming::Naming;
use crate::offices::Office;
use crate::works::{Built, Work};
use disk::Disk;
use keeper::Task;
use published::{Published, Shown, ShownReader};
use roadnet::{OutOfMemory, Refusal};
use rows::View;
use std::sync::{Arc, Wait};

impl<N: Naming, D: Disk> Office<N, D> {
    /// A task, as the keeper's: the durable version with a copy of its network. There is no task while one is out, or if the durable version is shown.
    ///
    /// The only error is lack of memory; then nothing has changed.
    pub fn take_task(&mut self) -> Result<Option<Task>, OutOfMemory>
        ensures step { TakesTask self.old.machine (or_out_of_memory (result_map (option_map (λ t. (t.version, t.network.value))) result)) self.new.machine }
        ensures disk { self.new.disk ≡ self.old.disk }
        ensures given { self.new.given ≡ self.old.given }
        ensures width { self.new.width ≡ self.old.width }
    {
        self.keeper.take_task()
    }

    /// A task, as `take_task` takes it, to be carried out outside the lock: the groups that lead from the shown version to the durable one. No network is
    /// copied, and there is no pass over its arcs.
    ///
    /// The only error is lack of memory; then nothing has changed.
    pub fn take_work(&mut self) -> Result<Option<Work>, OutOfMemory>
        ensures step { TakesTask self.old.machine (or_out_of_memory (result_map (option_map (λ w. (w.version, w.network))) result)) self.new.machine }
        ensures origin { IfOk result (λ work. IfSome work (λ w. w.origin ≡ N.origin)) }
        ensures before { IfOk result (λ work. IfSome work (λ w. w.before.version ≡ self.old.machine.shown)) }
        ensures disk { self.new.disk ≡ self.old.disk }
        ensures given { self.new.given ≡ self.old.given }
        ensures width { self.new.width ≡ self.old.width }
    {
        let opened = self.keeper.opened();
        let Some(task) = self.keeper.take_groups()? else {
            return Ok(None);
        };
        let groups = self.history.front(task.version - opened);
        Ok(Some(Work { task, groups }))
    }

    /// Ends the task of this version, if it is out. It takes no memory.
    pub fn give_up(&mut self, version: u64)
        ensures step { self.new.machine ≡ without_task self.old.machine version }
        ensures disk { self.new.disk ≡ self.old.disk }
        ensures given { self.new.given ≡ self.old.given }
        ensures width { self.new.width ≡ self.old.width }
    {
        self.keeper.give_up(version)
    }

    /// Shows the view of the task that is out to readers, and returns the shown version. It waits for those readers that are still taking a share of the
    /// view before the one that they see now.
    ///
    /// It is refused as the keeper refuses (51, 52), and then for lack of memory in the readers' copy (11). Then the view is handed back and nothing has
    /// changed: the task is out, and readers see what they saw.
    pub fn publish<R: Wait>(&mut self, rt: &R, view: Arc<View>) -> Result<u64, (Refusal, Arc<View>)>
        ensures step { IfOk result (λ shown. Publishes self.old.machine view.value.version view.value.network (Ok shown) self.new.machine) }
        ensures refused { IfErr result (λ refused. refused.0 ≢ out_of_memory → RefusesView self.old.machine view.value.version view.value.network refused.0) }
        ensures order { IfErr result (λ refused. refused.0 ≡ out_of_memory → IsTask self.old.machine view.value.version view.value.network) }
        ensures handed_back { IfErr result (λ refused. refused.1 ≡ view) }
        ensures same { OnErr result (self.new ≡ self.old) }
        ensures disk { self.new.disk ≡ self.old.disk }
        ensures given { self.new.given ≡ self.old.given }
        ensures width { OnOk result (self.new.width ≡ view.value.delta) }
    {
        if let Err(refusal) = self.keeper.may_publish(&view) {
            return Err((refusal, view));
        }
        self.show_admitted(rt, view)
    }

    /// Why `show` of what was built would be refused, apart from memory: 51 if no task is out, 52 if the task's version is another. It takes no memory.
    fn may_show(&self, built: &Built) -> Result<(), Refusal>
        requires { built.now.shown.origin ≡ N.origin }
        ensures { MatchResult result (λ _. IsTask self.now.machine built.now.view.version built.now.view.network) (RefusesView self.now.machine built.now.view.version built.now.view.network) }
    {
        let _ = self.keeper.opened();
        let Some(task) = self.keeper.task() else {
            return Err(Refusal::NoTask);
        };
        if task != built.view.version() {
            return Err(Refusal::OtherNetwork);
        }
        let _known = self.history.begins(&built.groups);
        Ok(())
    }

    /// Shows what was built for the task that is out, as `publish` shows its view, without a look at the view's arcs. It is a fact of the type that the
    /// view's network is the one at its version.
    ///
    /// It is refused as the keeper refuses (51, 52), and then for lack of memory in the readers' copy (11). Then what was built is handed back and nothing
    /// has changed.
    ///
    /// With the task of version 1 out, what was built for it is shown. What was built for an earlier task is `OtherNetwork`.
    pub fn show<R: Wait>(&mut self, rt: &R, built: Built) -> Result<u64, (Refusal, Built)>
        requires { built.shown.origin ≡ N.origin }
        ensures step { IfOk result (λ shown. Publishes self.old.machine built.view.version built.view.network (Ok shown) self.new.machine) }
        ensures refused { IfErr result (λ refused. refused.0 ≢ out_of_memory → RefusesView self.old.machine built.view.version built.view.network refused.0) }
        ensures order { IfErr result (λ refused. refused.0 ≡ out_of_memory → IsTask self.old.machine built.view.version built.view.network) }
        ensures handed_back { IfErr result (λ refused. refused.1 ≡ built) }
        ensures same { OnErr result (self.new ≡ self.old) }
        ensures disk { self.new.disk ≡ self.old.disk }
        ensures given { self.new.given ≡ self.old.given }
        ensures width { OnOk result (self.new.width ≡ built.view.delta) }
    {
        if let Err(refusal) = self.may_show(&built) {
            return Err((refusal, built));
        }
        let Built { view, groups } = built;
        match self.show_admitted(rt, view) {
            Ok(shown) => Ok(shown),
            Err((refusal, view)) => Err((refusal, Built { view, groups })),
        }
    }

    /// Shows the view of the task. It fails only for lack of memory in the readers' copy.
    fn show_admitted<R: Wait>(
        &mut self,
        rt: &R,
        view: Arc<View>,
    ) -> Result<u64, (Refusal, Arc<View>)>
        requires { IsTask self.old.machine view.value.version view.value.network }
        ensures step { IfOk result (λ shown. Publishes self.old.machine view.value.version view.value.network (Ok shown) self.new.machine) }
        ensures memory { IfErr result (λ refused. refused.0 ≡ out_of_memory) }
        ensures handed_back { IfErr result (λ refused. refused.1 ≡ view) }
        ensures same { OnErr result (self.new ≡ self.old) }
        ensures disk { self.new.disk ≡ self.old.disk }
        ensures given { self.new.given ≡ self.old.given }
        ensures width { OnOk result (self.new.width ≡ view.value.delta) }
    {
        let Ok(shared) = Arc::try_clone(&view) else {
            return Err((Refusal::OutOfMemory, view));
        };
        let count = view.version() - self.keeper.opened();
        let next = Published::new(shared, self.history.front(count));
        if self.publisher.switch(rt, next).is_err() {
            return Err((Refusal::OutOfMemory, view));
        }
        Ok(self.keeper.publish_admitted(view))
    }

    /// Returns what is shown, as readers can learn it: the accepted groups up to the shown version. It takes no memory.
    pub fn tell(&self) -> Shown
        ensures origin { result.origin ≡ N.origin }
        ensures groups { result.groups ≡ groups_to self.now.machine self.now.machine.shown }
    {
        self.publisher.tell()
    }

    /// A reader of this desk that has not seen any group.
    ///
    /// It fails with 60 if each of the 64 places is taken. While it looks nobody else takes one.
    pub fn reader(&mut self) -> Result<ShownReader, Refusal>
        ensures reader { IfOk result (λ reader. (reader.origin ≡ N.origin) × (reader.groups ≡ [])) }
        ensures causes { IfErr result (λ refusal. refusal ≡ no_reader_place) }
        ensures same { self.new ≡ self.old }
    {
        self.publisher.reader()
    }

    /// How many readers there are at this moment. They are dropped without the office, so a moment later there may be fewer.
    pub fn readers(&self) -> u64 {
        self.publisher.readers()
    }
}
