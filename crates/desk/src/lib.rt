//! The desk of a store: an office under a lock, a thread that makes groups durable, a thread that builds views, and readers that wait for neither.
#![tactic(auto)]

mod desks;
mod gates;
mod handles;
mod lock;
mod readers;
mod served;
mod threads;

pub use desks::{Desk, EndedDesk, Setup};
pub use gates::{Gate, NoGate};
pub use handles::handle::Handle;
pub use handles::refused::Refused;
pub use handles::states::{DeskState, Working};
pub use history::History;
pub use office::{Basis, Closed, Naming, Receipt, Ticket};
pub use published::Shown;
pub use readers::pins::Pinned;
pub use readers::places::{Glance, Place};
pub use readers::reader::Reader;
pub use rows::Near;
pub use served::{Over, Served, ServedApart};
