//! The state under the lock of a desk: the keeper, the history of its groups and the readers' copy, which agree whenever the lock is acquired; and what
//! callers carry away from it.
#![tactic(auto)]

mod bases;
mod checkpoints;
mod closed;
mod counts;
mod naming;
mod numbers;
mod offices;
mod publishing;
mod settling;
mod submitting;
mod works;

pub use bases::Basis;
pub use closed::Closed;
pub use history::{Claim as Ticket, Settled as Receipt};
pub use naming::Naming;
pub use offices::Office;
pub use works::{Built, Work};
