//! What a keeper does and says beyond its ledger: it shows views, hands out tasks and answers queries.

mod asking;
pub(crate) mod keepers;
mod numbers;
mod offices;
pub(crate) mod starting;
pub(crate) mod tasks;
mod writing;
