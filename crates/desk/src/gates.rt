/// What may delay the threads of a desk. Each call is made while no lock is held.
pub trait Gate {
    /// A row worker, counted from 1, is about to make the row of this landmark.
    fn before_row(&self, worker: u32, landmark: u32);

    /// The flusher is about to flush; the versions up to this one are durable. `false` counts as an attempt that found no memory.
    fn before_flush(&self, durable: u64) -> bool;

    /// The builder is about to take a task; the versions up to this one are durable. `false` counts as an attempt that found no memory.
    fn before_task(&self, durable: u64) -> bool;

    /// The flusher is about to make a step of the checkpoint of this version: of the one that is going, or otherwise of a new one. `false` counts as an
    /// attempt that found no memory.
    fn before_step(&self, version: u64) -> bool;

    /// The builder found no memory three times in a row, and ends: no later version will be shown.
    fn builder_gave_up(&self) {}
}

/// Delays nothing.
#[derive(Clone, Copy)]
pub struct NoGate;

impl Gate for NoGate {
    fn before_row(&self, _worker: u32, _landmark: u32) {}

    fn before_flush(&self, _durable: u64) -> bool {
        true
    }

    fn before_task(&self, _durable: u64) -> bool {
        true
    }

    fn before_step(&self, _version: u64) -> bool {
        true
    }
}
