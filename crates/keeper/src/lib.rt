//! The keeper of a store: one object that accepts groups of commands, makes them durable, writes checkpoints, hands out tasks, shows views and answers
//! queries. Each of its calls is a step of the machine of the crate `machine`.
#![tactic(auto)]

mod keeper;
mod ledger;
mod networks;

pub use keeper::keepers::Keeper;
pub use keeper::starting::view_of;
pub use keeper::tasks::{GroupTask, Task};
pub use ledger::ledgers::Ledger;
pub use machine::{Answer, Event, Receipt, Replied, Ticket, Writing};
