ghost use Rattle.std.specs.Prelude.{◌≡◌, ◌≤◌, true, Some, IfOk, IfErr};
ghost use Rattle.std.specs.Option.{ForSome};
ghost use Rattle.roadnet.specs.declared.refusals.Refusal.TheVariants.{Closed as closed};
ghost use Rattle.rows.specs.Kept.{IsWidth};
ghost use Rattle.store.specs.State.{CameTidy, is_calm};
ghost use Rattle.office.specs.Left.{KeepsDesk};
ghost use Rattle.disk.specs.Contents.{AreAmong};
ghost use Rattle.desk.specs.Openings.{IsNewDesk, IsUnstarted};

use crate::handles::handle::Handle;
use crate::handles::shelves::Shelf;
use crate::lock::shared::Shared;
use crate::served::{Served, ServedApart};
use crate::threads::building::build_views;
use crate::threads::flushing::flush_pending;
use crate::threads::plans::Plan;
use crate::threads::starting::{StartedThreads, start_thread};
use history::History;
use office::{Closed, Office};
use roadnet::Refusal;
use rows::Ran;
use std::alloc::Global;
use std::ops::Deref;
use std::sync::Arc;
use std::time::{Duration, Instant};
use store::Store;

/// How a desk builds its views, and how long callers wait for one.
#[derive(Clone, Copy, Debug, PartialEq, Eq)]
pub struct Setup {
    /// The width of the buckets of searches, 1 to 2147483647. If none is given, it is each network's default.
    pub delta: Option<u32>,
    /// How many row workers there are, 1 to 64.
    pub workers: u32,
    /// How long a caller waits for a version that is not shown.
    pub patience: Duration,
    /// How many pairs of pipes the desk serves, as `state` reports it.
    pub pairs: u64,
}

/// Starts the flusher and the builder of a desk. If the system gives no thread (63), neither runs.
fn start_both<S: Served + Send + 'static>(
    rt: S::Runtime,
    shared: &Arc<Shared<S>>,
    plan: Plan,
) -> Result<StartedThreads, Refusal>
where
    S::Naming: Send + Sync + 'static,
    S::Disk: Send + 'static,
    S::Gate: Send + Sync + 'static,
    S::Runtime: Send + Sync + 'static,
    ensures causes { IfErr result IsUnstarted }
{
    let (Ok(of_flusher), Ok(of_builder)) = (Arc::try_clone(shared), Arc::try_clone(shared)) else {
        return Err(Refusal::OutOfMemory);
    };
    let flusher = start_thread(
        &rt,
        of_flusher,
        move |shared: Arc<Shared<S>>| flush_pending(&rt, &shared),
    )?;
    let Ok(builder) = start_thread(
        &rt,
        of_builder,
        move |shared: Arc<Shared<S>>| build_views(&rt, &shared, &plan),
    ) else {
        shared.halt(&rt);
        flusher.join(&rt);
        return Err(Refusal::NoThread);
    };
    Ok(StartedThreads { flusher, builder })
}

/// A store that is served: one thread makes groups durable, and another shows them. It has the calls of its handle, which it lends to other threads.
///
/// A desk that is dropped without `close` halts, waits for its threads, and closes the readers' copy: its readers can no longer look, and each call of a
/// remaining handle is refused (61).
pub struct Desk<S: Served> {
    handle: Handle<S>,
    threads: StartedThreads,
    // How the builder builds views.
    plan: Plan,
}

impl<S: Served> Ran for Desk<S> {
    ghost width_given = { λ desk. desk.plan.delta };

    ghost workers_given = { λ desk. Some desk.plan.workers };

    fn width(&self) -> Option<u32> {
        self.plan.delta
    }

    fn workers(&self) -> Option<u32> {
        Some(self.plan.workers)
    }
}

impl<S: Served> Drop for Desk<S> {
    fn drop(self) {
        let _ = self.close();
    }
}

impl<S: Served> Deref for Desk<S> {
    type Target = Handle<S>;

    fn deref(&self) -> &Handle<S> {
        &self.handle
    }
}

impl<S: ServedApart> Desk<S> {
    /// Serves a store that is not broken, with the history of a new desk. This call builds the first view. The row workers make the rows of its landmarks,
    /// without a call of the gate.
    ///
    /// It fails with 11 for lack of memory, and with 63 if the system gives no thread. Then the store is dropped, and no thread runs.
    pub fn start(
        rt: S::Runtime,
        alloc: Global,
        history: History,
        store: Store<S::Disk>,
        gate: S::Gate,
        setup: Setup,
    ) -> Result<Desk<S>, Refusal>
        requires calm { is_calm store ≡ true }
        requires width { ForSome setup.delta IsWidth }
        requires workers { (1 ≤ setup.workers) × (setup.workers ≤ 64) }
        requires new { IsNewDesk S.Naming.origin history store }
        requires came_tidy { S.Naming.came_tidy → CameTidy S.Disk.honest S.Disk.content store.given }
        ensures causes { IfErr result IsUnstarted }
        // It builds by the setup.
        ensures width { IfOk result (λ desk. desk.plan.delta ≡ setup.delta) }
        ensures workers { IfOk result (λ desk. desk.plan.workers ≡ setup.workers) }
    {
        let plan = Plan {
            alloc,
            delta: setup.delta,
            workers: setup.workers,
        };
        let Ok(view) = plan.first(&rt, &store) else {
            return Err(Refusal::OutOfMemory);
        };
        let Ok(office) = Office::new(&rt, alloc, history, store, view) else {
            return Err(Refusal::OutOfMemory);
        };
        let Ok(shelf) = Shelf::new(alloc) else {
            return Err(Refusal::OutOfMemory);
        };
        let Ok(shared) = Arc::new(alloc, Shared::new(office, shelf, gate)) else {
            return Err(Refusal::OutOfMemory);
        };
        let threads = start_both(rt, &shared, plan)?;
        Ok(Desk {
            handle: Handle {
                rt,
                alloc,
                shared,
                patience: setup.patience,
                since: Instant::now(&rt).ok(),
                pairs: setup.pairs,
            },
            threads,
            plan,
        })
    }
}

impl<S: Served> Desk<S> {
    /// Halts the desk, and waits until its flusher has ended. Then what was accepted is durable, or never will be, and nothing more is written to the disk.
    /// The last view may still be built.
    pub fn end_writing(&self) {
        self.shared.end_writing(&self.rt)
    }

    /// Halts the desk, and waits until both of its threads have ended. Then what was accepted is durable and shown, or never will be. Whoever waits by a
    /// handle is served or refused.
    pub fn end_showing(self) -> EndedDesk<S> {
        let Desk {
            handle,
            threads,
            plan: _,
        } = self;
        let Handle {
            rt,
            alloc: _,
            shared,
            patience: _,
            since: _,
            pairs: _,
        } = handle;
        shared.halt(&rt);
        threads.join(&rt);
        EndedDesk { rt, shared }
    }

    /// What threads share to call the desk at the same time.
    pub fn handle(&self) -> &Handle<S> {
        &self.handle
    }

    /// Halts the desk, waits for its threads, and returns what it leaves, as `EndedDesk::close` does.
    pub fn close(self) -> Result<Closed<S::Disk>, Refusal>
        ensures origin { IfOk result (λ closed. closed.whole.origin ≡ S.Naming.origin) }
        ensures causes { IfErr result (λ refusal. refusal ≡ closed) }
        ensures honest { S.Naming.came_tidy → IfOk result (λ closed. S.Disk.honest closed.disk) }
        ensures left { S.Naming.came_tidy → IfOk result (λ closed. AreAmong (S.Disk.left closed.disk) (KeepsDesk closed.whole closed.shown closed.journal_pages)) }
    {
        self.end_showing().close()
    }
}

/// A desk whose threads have ended: the last view is shown. Its readers can still look. If it is dropped it is closed.
pub struct EndedDesk<S: Served> {
    rt: S::Runtime,
    shared: Arc<Shared<S>>,
}

impl<S: Served> Drop for EndedDesk<S> {
    fn drop(self) {
        let _ = self.close();
    }
}

impl<S: Served> EndedDesk<S> {
    /// What the desk leaves: the history, what was shown last, and the disk. Its readers can no longer look. Others may still have handles: from then on each
    /// call of theirs is refused (61), and nobody waits.
    ///
    /// It would fail with 61 if the office had been taken out before, which never happens.
    pub fn close(self) -> Result<Closed<S::Disk>, Refusal>
        ensures origin { IfOk result (λ closed. closed.whole.origin ≡ S.Naming.origin) }
        ensures causes { IfErr result (λ refusal. refusal ≡ closed) }
        // The disk keeps the disk model.
        ensures honest { S.Naming.came_tidy → IfOk result (λ closed. S.Disk.honest closed.disk) }
        // What a stop may leave on the disk stands for the network after a front of the history that has everything acknowledged or shown.
        ensures left { S.Naming.came_tidy → IfOk result (λ closed. AreAmong (S.Disk.left closed.disk) (KeepsDesk closed.whole closed.shown closed.journal_pages)) }
    {
        let EndedDesk { rt, shared } = self;
        match shared.take_office(&rt) {
            Some(office) => Ok(office.close(&rt)),
            None => Err(Refusal::Closed),
        }
    }
}
