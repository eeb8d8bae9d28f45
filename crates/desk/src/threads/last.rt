// The last version of a desk, and why a view is not built.
use roadnet::OutOfMemory;
use std::sync::atomic::{AtomicU64, Ordering};
use thiserror::Error;

/// The last version of a desk, as long as it is not known. No version is that high.
pub(crate) const UNKNOWN: u64 = u64::MAX;

/// Whether a view of this version is skipped, because a later one is known to be the last.
pub(crate) fn is_passed(last: &AtomicU64, version: u64) -> bool {
    let last = last.load(Ordering::SeqCst);
    last != UNKNOWN && version < last
}

/// Why a view is not built.
#[derive(Clone, Copy, Debug, PartialEq, Eq, Error)]
pub(crate) enum Unbuilt {
    /// No memory was found.
    #[error("out of memory")]
    OutOfMemory,
    /// A later version is the desk's last.
    #[error("a later version is the last")]
    PassedOver,
}

impl From<OutOfMemory> for Unbuilt {
    fn from(_: OutOfMemory) -> Unbuilt {
        Unbuilt::OutOfMemory
    }
}
