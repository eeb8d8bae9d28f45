// The flusher: the thread that makes groups durable and writes checkpoints.
use crate::gates::Gate;
use crate::lock::shared::Shared;
use crate::lock::turns::FlusherTurn;
use crate::served::Served;
use crate::threads::attempts::{Attempt, Misses, attempt_of};
use machine::PAGES_OF_STEP;
use store::Part;

impl<S: Served> Shared<S> {
    /// A flush, unless the gate delays it.
    fn flush(&self, rt: &S::Runtime, durable: u64) -> Attempt {
        if !self.gate.before_flush(durable) {
            return Attempt::NoMemory;
        }
        let flushed = match &mut self.lock(rt).office {
            Some(office) => office.flush(),
            None => return Attempt::Done,
        };
        self.flushed.notify_all();
        match flushed {
            Ok(_) => Attempt::Done,
            Err(refusal) => attempt_of(refusal),
        }
    }

    /// A step of a checkpoint, unless the gate delays it: of the one that is going, which holds this version, or otherwise of a new one.
    fn step(&self, rt: &S::Runtime, going: &mut Option<u64>, durable: u64) -> Attempt {
        let version = match *going {
            Some(version) => version,
            None => durable,
        };
        if !self.gate.before_step(version) {
            return Attempt::NoMemory;
        }
        let part = match &mut self.lock(rt).office {
            Some(office) => office.checkpoint_step(PAGES_OF_STEP),
            None => return Attempt::Done,
        };
        match part {
            Ok(Part::Going) => {
                *going = Some(version);
                Attempt::Done
            }
            Ok(Part::Done(_)) => {
                *going = None;
                Attempt::Done
            }
            Err(refusal) => attempt_of(refusal),
        }
    }
}

/// What the flusher does until it ends.
pub(crate) fn flush_pending<S: Served>(rt: &S::Runtime, shared: &Shared<S>) {
    let mut misses = Misses::none();
    let mut has_flushed = false;
    let mut going = None;
    for _ in rt.forever() {
        let attempt = match shared.next_flusher_turn(rt, has_flushed) {
            FlusherTurn::End => break,
            FlusherTurn::Rest => Attempt::Done,
            FlusherTurn::Flush { durable } => {
                has_flushed = true;
                shared.flush(rt, durable)
            }
            FlusherTurn::Checkpoint { durable } => {
                has_flushed = false;
                shared.step(rt, &mut going, durable)
            }
        };
        if !misses.goes_on(attempt) {
            break;
        }
        shared.rest_behind(rt, misses, attempt);
    }
    shared.end_flusher(rt);
}
