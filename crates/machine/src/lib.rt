//! What a keeper of a store is: a machine whose steps are its calls, the runs of the machine over lives with stops, and the laws of these. This crate has
//! no keeper, no store and no disk.
#![tactic(auto)]

mod calls;
mod events;
mod laws;
mod limits;
mod pages;

pub use calls::{Answer, Receipt, Ticket};
pub use events::{Event, Replied, Writing};
pub use laws::{laws_of_lives, laws_of_one_life, laws_of_runs, laws_of_steps};
pub use limits::{MOST_OF_LIFE, MOST_PENDING, PAGES_OF_STEP};
pub use pages::StepPages;
