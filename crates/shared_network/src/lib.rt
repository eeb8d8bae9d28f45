//! Road networks that share their arcs: a network after some commands costs what they change, and no copy.
#![tactic(auto)]

mod carrying;
mod marking;
mod networks;
mod probing;
mod reversal;

pub use networks::SharedNetwork;
