//! What the threads of a desk do: the flusher, the builder and the workers on rows.

pub(crate) mod attempts;
pub(crate) mod building;
mod earlier;
pub(crate) mod flushing;
pub(crate) mod last;
mod leaves;
mod older;
pub(crate) mod plans;
mod repairs;
mod row_workers;
pub(crate) mod starting;
