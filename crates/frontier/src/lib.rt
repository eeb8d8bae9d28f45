//! The frontier of a search: tentative values, and the nodes whose legs are still to be relaxed, in buckets by value.
#![tactic(auto)]

mod entries;
mod frontier;
mod lazy;
mod lower;
mod mended;
mod paged;
mod queued;
mod remembered;
mod values;

pub use entries::EntryRing;
pub use frontier::Frontier;
pub use lazy::LazyRing;
pub use mended::Mended;
pub use queued::Queued;
pub use remembered::Remembered;
pub use values::SearchValues;
