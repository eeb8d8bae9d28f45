// What each event of a script does in a life of a keeper.
ghost use Rattle.std.specs.Prelude.{◌≡◌, ◌≤◌, false, true, length, IfOk, IfErr};
ghost use Rattle.std.specs.Option.{ForSome};
ghost use Rattle.disk.specs.Stop.{armed_at};
ghost use Rattle.rows.specs.Kept.{IsWidth};
ghost use Rattle.store.specs.State.{is_calm};
ghost use Rattle.machine.specs.declared.events.Event.TheVariants.{Submit, Task as TaskEvent, Publish, Ask};
ghost use Rattle.machine.specs.declared.events.Writing.TheVariants.{Step as a_step};
ghost use Rattle.machine.specs.Lives.{told_version, told_part};
ghost use Rattle.lives.specs.Living.{IsStoreAtRest, BeginsFrom, Replies, RepliesToWrite, IsOnlyArmed};
ghost use Rattle.keeper.specs.Parts.{told_step};
ghost use Rattle.lives.specs.Rehearsing.{is_stop};

use crate::lives::Life;
use disk::{Pick, Stoppable};
use keeper::{Keeper, view_of};
use machine::{Event, Replied, StepPages, Writing};
use roadnet::{Group, Refusal};
use rows::Query;
use std::alloc::Global;
use std::thread::Threads;
use store::{Part, Store};

/// The reply to a flush or a checkpoint.
fn told_version(written: &Result<u64, Refusal>) -> Replied
    ensures { result ≡ told_version written.now }
{
    match written {
        Ok(version) => Replied::Durable { version: *version },
        Err(refusal) => Replied::Refused { refusal: *refusal },
    }
}

/// The reply to a step of a checkpoint.
fn told_part(stepped: &Result<Part, Refusal>) -> Replied
    ensures { result ≡ told_part (told_step stepped.now) }
{
    match stepped {
        Ok(Part::Going) => Replied::Stepped,
        Ok(Part::Done(version)) => Replied::Durable { version: *version },
        Err(refusal) => Replied::Refused { refusal: *refusal },
    }
}

impl<D: Stoppable> Life<D> {
    /// The life that begins with an opened store.
    pub(crate) fn begin<R: Threads>(
        rt: &R,
        alloc: Global,
        store: Store<D>,
        delta: Option<u32>,
    ) -> Result<Life<D>, Store<D>>
        requires calm { is_calm store ≡ true }
        requires width { ForSome delta IsWidth }
        ensures begins { IfOk result (BeginsFrom store delta) }
        ensures handed_back { IfErr result (λ refused. refused ≡ store) }
        ensures told { IsStoreAtRest D.Disk store }
    {
        let opened = store.version();
        match Keeper::new(rt, alloc, store, delta) {
            Ok(keeper) => Ok(Life {
                keeper,
                opened,
                aside: None,
                delta,
            }),
            Err((_, store)) => Err(store),
        }
    }

    /// How many groups were accepted in this life.
    pub(crate) fn accepted(&self) -> usize
        ensures { result ≡ length self.now.keeper.machine.accepted }
    {
        self.keeper.groups().len()
    }

    /// A copy of a group is submitted.
    pub(crate) fn submit(&mut self, group: &Group) -> Replied
        ensures { Replies (Submit group.now) result self.old self.new }
    {
        match self.keeper.submit_copy(group) {
            Ok(number) => Replied::Accepted { number },
            Err(refusal) => Replied::Refused { refusal },
        }
    }

    /// A flush, a whole checkpoint or a step of one.
    pub(crate) fn write(&mut self, writing: Writing) -> Replied
        ensures { RepliesToWrite writing result self.old self.new }
    {
        match writing {
            Writing::Flush => told_version(&self.keeper.flush()),
            Writing::Checkpoint => told_version(&self.keeper.checkpoint()),
            Writing::Step { pages } => self.step(pages),
        }
    }

    /// A step of a checkpoint.
    fn step(&mut self, pages: StepPages) -> Replied
        ensures { RepliesToWrite (a_step pages) result self.old self.new }
    {
        told_part(&self.keeper.checkpoint_step(pages.number()))
    }

    /// A task is taken, and its view is built and set aside. If there is no memory for the view, the task is given up.
    pub(crate) fn task<R: Threads>(&mut self, rt: &R, alloc: Global) -> Replied
        ensures { Replies TaskEvent result self.old self.new }
    {
        let task = match self.keeper.take_task() {
            Ok(Some(task)) => task,
            Ok(None) => {
                return Replied::Refused {
                    refusal: Refusal::NoTask,
                };
            }
            Err(_) => {
                return Replied::Refused {
                    refusal: Refusal::OutOfMemory,
                };
            }
        };
        let version = task.version;
        match view_of(rt, alloc, version, &task.network, self.delta) {
            Ok(view) => {
                self.aside = Some(view);
                Replied::Task { version }
            }
            Err(_) => {
                self.keeper.give_up(version);
                Replied::Refused {
                    refusal: Refusal::OutOfMemory,
                }
            }
        }
    }

    /// The view that was set aside is shown.
    pub(crate) fn publish(&mut self) -> Replied
        ensures { Replies Publish result self.old self.new }
    {
        let Some(view) = self.aside.take() else {
            return Replied::Refused {
                refusal: Refusal::NoTask,
            };
        };
        match self.keeper.publish(view) {
            Ok(version) => Replied::Shown { version },
            Err((refusal, _)) => Replied::Refused { refusal },
        }
    }

    /// A query is answered from the shown view.
    pub(crate) fn ask<R: Threads>(&mut self, rt: &R, query: Query) -> Replied
        ensures { Replies (Ask query) result self.old self.new }
    {
        match self.keeper.ask(rt, query) {
            Ok(answer) => Replied::Answered { query, answer },
            Err(_) => Replied::Refused {
                refusal: Refusal::OutOfMemory,
            },
        }
    }

    /// Arms the disk, so that its write or sync of this number from now on is cut. 0 arms nothing.
    pub(crate) fn arm(&mut self, call: u64)
        ensures armed { 1 ≤ call → D.armed self.new.keeper.disk ≡ armed_at call (D.armed self.old.keeper.disk) }
        ensures nothing { call ≡ 0 → self.new ≡ self.old }
        ensures same { IsOnlyArmed self.old self.new }
    {
        if call > 0 {
            self.keeper.arm(call);
        }
    }

    /// The reply to an event that is not a stop.
    pub(crate) fn reply<R: Threads>(
        &mut self,
        rt: &R,
        alloc: Global,
        event: &Event<Pick>,
    ) -> Replied
        requires { is_stop event.now ≡ false }
        ensures { Replies event.now result self.old self.new }
    {
        match event {
            Event::Submit { group } => self.submit(group),
            Event::Flush => self.write(Writing::Flush),
            Event::Checkpoint => self.write(Writing::Checkpoint),
            Event::CheckpointStep { pages } => self.write(Writing::Step { pages: *pages }),
            Event::Task => self.task(rt, alloc),
            Event::Publish => self.publish(),
            Event::Ask { query } => self.ask(rt, *query),
            _ => unreachable!(),
        }
    }
}
