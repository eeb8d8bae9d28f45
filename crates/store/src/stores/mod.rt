//! The calls of a store, which name no page.

mod alone;
mod arming;
mod in_flight;
pub(crate) mod making;
pub(crate) mod standing;
pub(crate) mod store;
