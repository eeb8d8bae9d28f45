//! What a ledger does and says: it accepts groups, makes them durable and writes checkpoints.

mod beginning;
mod checkpoints;
mod counts;
mod entries;
mod flushing;
pub(crate) mod ledgers;
mod offices;
mod submitting;
