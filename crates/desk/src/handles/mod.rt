//! The calls of a handle, which every caller of a desk has.

mod awaited;
pub(crate) mod handle;
mod nearby;
pub(crate) mod refused;
pub(crate) mod shelves;
pub(crate) mod states;
mod walking;
