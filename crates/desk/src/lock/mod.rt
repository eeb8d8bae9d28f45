//! What the threads and callers of a desk share, and what lies under its lock.

pub(crate) mod held;
pub(crate) mod shared;
pub(crate) mod turns;
