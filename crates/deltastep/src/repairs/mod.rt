//! A row repaired after a change of some arcs.

pub(crate) mod changed;
mod near;
mod remaining;
pub(crate) mod repairing;
mod untouched;
