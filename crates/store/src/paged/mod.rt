//! The calls of a store's pages: commits and checkpoints.

mod arming;
mod checkpoint_parts;
mod checkpointing;
mod commit;
mod going;
pub(crate) mod parts;
pub(crate) mod state;
