//! What is written where a store is created: on an empty disk, as a copy, or from an older format.

mod batch;
pub(crate) mod copying;
pub(crate) mod creation;
pub(crate) mod rooms;
