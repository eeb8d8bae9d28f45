//! How many reader places are taken.
use std::alloc::AllocError;
use std::sync::Arc;
use std::sync::atomic::{AtomicU64, Ordering};

/// A place that counts as taken until it is dropped.
pub(crate) struct Seat {
    taken: Arc<AtomicU64>,
}

impl Seat {
    /// Takes one more place. Its only error is that the count of shares is full.
    pub(crate) fn take(taken: &Arc<AtomicU64>) -> Result<Seat, AllocError> {
        let taken = Arc::try_clone(taken)?;
        taken.fetch_add(1, Ordering::SeqCst);
        Ok(Seat { taken })
    }
}

impl Drop for Seat {
    fn drop(self) {
        let Seat { taken } = self;
        taken.fetch_sub(1, Ordering::SeqCst);
    }
}
