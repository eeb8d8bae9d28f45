//! A store: a road network that is kept on a disk.
#![tactic(auto)]

mod created;
mod opened;
mod paged;
mod stores;

pub use created::copying::{copy, migrate};
pub use created::rooms::with_given_room;
pub use paged::parts::Part;
pub use stores::making::{create, create_at, open};
pub use stores::standing::{Inspected, Standing, inspect};
pub use stores::store::Store;
