//! Texts that run on a store: it is made from a network and its landmarks, changed by commands, and asked for pairs and for tables of them. A store may
//! also be only examined, or written as texts; or a store is made from another one, of this format or the previous one. The disk of a store that is made,
//! or that is read for that, may be made late: at the first call of it.
#![tactic(auto)]

mod applying;
mod asking;
mod checking;
mod creating;
mod exporting;
mod late;
mod moving;
mod outcomes;
mod refusals;
mod showing;
mod tabling;
mod upgrading;

pub use applying::apply_text;
pub use asking::ask_text;
pub use checking::check_text;
pub use creating::create_text;
pub use exporting::{export_text, laws_of_exports};
pub use late::{LateDisk, MakesDisk};
pub use moving::{copy_text, migrate_text};
pub use refusals::HearsRefusals;
pub use showing::show_text;
pub use tabling::ask_table_text;
pub use upgrading::upgrade_text;
