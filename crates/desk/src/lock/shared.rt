// What the threads of a desk and its callers share.
use crate::handles::shelves::Shelf;
use crate::lock::held::Held;
use crate::lock::turns::{BuilderTurn, FlusherTurn};
use crate::served::{OfficeOf, Served};
use crate::threads::attempts::{Attempt, Misses};
use crate::threads::last::UNKNOWN;
use std::sync::atomic::{AtomicU64, Ordering};
use std::sync::{Condvar, Mutex, MutexGuard};
use std::time::Duration;

/// The lock, and the condition variables.
#[derive(Drop)]
pub(crate) struct Shared<S: Served> {
    pub(crate) held: Mutex<Held<OfficeOf<S>>>,
    /// A group was submitted, or the desk was halted. The flusher waits for it.
    pub(crate) submitted: Condvar,
    /// Groups became durable, or the flusher ended. The builder and the callers that settle wait for it.
    pub(crate) flushed: Condvar,
    /// A view was shown, or a thread ended. Those that wait for a view wait for it.
    pub(crate) published: Condvar,
    /// The desk was halted. A thread that rests waits for it.
    pub(crate) halting: Condvar,
    /// The last version, once nothing more becomes durable. Row workers read it without the lock.
    pub(crate) last: AtomicU64,
    /// How many clients there are, and how many callers wait.
    pub(crate) clients: AtomicU64,
    pub(crate) waiting: AtomicU64,
    /// The rows that are kept for all callers.
    pub(crate) rows: Mutex<Shelf<S::Naming>>,
    pub(crate) gate: S::Gate,
}

impl<S: Served> Shared<S> {
    /// Acquires the lock.
    pub(crate) fn lock(&self, rt: &S::Runtime) -> MutexGuard<'_, Held<OfficeOf<S>>> {
        self.held.lock(rt)
    }

    /// Waits until the flusher has something to do, and returns that.
    pub(crate) fn next_flusher_turn(&self, rt: &S::Runtime, has_flushed: bool) -> FlusherTurn {
        let guard = self.submitted.wait_while(
            rt,
            self.held.lock(rt),
            |held: &mut Held<OfficeOf<S>>| held.flusher_turn(has_flushed) == FlusherTurn::Rest,
        );
        guard.flusher_turn(has_flushed)
    }

    /// Waits until the builder has something to do, and returns that.
    pub(crate) fn next_builder_turn(&self, rt: &S::Runtime) -> BuilderTurn {
        let guard = self.flushed.wait_while(
            rt,
            self.held.lock(rt),
            |held: &mut Held<OfficeOf<S>>| held.builder_turn() == BuilderTurn::Rest,
        );
        guard.builder_turn()
    }

    /// The flusher has ended: what is durable is the last version.
    pub(crate) fn end_flusher(&self, rt: &S::Runtime) {
        self.held.lock(rt).end_flusher(&self.last);
        self.flushed.notify_all();
        self.published.notify_all();
    }

    /// The lock of a new desk.
    pub(crate) fn new(office: OfficeOf<S>, shelf: Shelf<S::Naming>, gate: S::Gate) -> Shared<S> {
        Shared {
            held: Mutex::new(Held::new(office)),
            submitted: Condvar::new(),
            flushed: Condvar::new(),
            published: Condvar::new(),
            halting: Condvar::new(),
            last: AtomicU64::new(UNKNOWN),
            clients: AtomicU64::new(0),
            waiting: AtomicU64::new(0),
            rows: Mutex::new(shelf),
            gate,
        }
    }

    /// No more groups are accepted.
    pub(crate) fn halt(&self, rt: &S::Runtime) {
        self.held.lock(rt).halted = true;
        self.submitted.notify_all();
        self.halting.notify_all();
    }

    /// Rests after an attempt of a thread, which is counted, if it found no memory. A halt in the meantime ends the rest.
    pub(crate) fn rest_behind(&self, rt: &S::Runtime, misses: Misses, attempt: Attempt) {
        let millis = misses.rest(attempt);
        if millis == 0 {
            return;
        }
        let guard = self.held.lock(rt);
        let halted = guard.halted;
        let _ = self.halting.wait_timeout_while(
            rt,
            guard,
            Duration::from_millis(millis),
            |held: &mut Held<OfficeOf<S>>| held.halted == halted,
        );
    }

    /// Halts, and waits until the flusher has ended.
    pub(crate) fn end_writing(&self, rt: &S::Runtime) {
        self.halt(rt);
        let _ = self.flushed.wait_while(
            rt,
            self.held.lock(rt),
            |held: &mut Held<OfficeOf<S>>| !held.flusher_ended,
        );
    }

    /// The builder has ended.
    pub(crate) fn end_builder(&self, rt: &S::Runtime) {
        self.held.lock(rt).builder_ended = true;
        self.published.notify_all();
    }

    /// Takes the office out of the lock; nothing if that was done before. From then on each call is refused (61), and nobody waits.
    pub(crate) fn take_office(&self, rt: &S::Runtime) -> Option<OfficeOf<S>> {
        let office = self.held.lock(rt).take();
        self.submitted.notify_all();
        self.flushed.notify_all();
        self.published.notify_all();
        office
    }
}
