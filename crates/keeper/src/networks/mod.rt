//! What is asked of networks alone, and of the groups that lead from one to another.

pub(crate) mod carrying;
pub(crate) mod leading;
pub(crate) mod same;
