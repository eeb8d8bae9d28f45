//! Rehearsals: the events of a script, run on a new store of a network in memory over lives with stops, and the replies printed. Network and script are two
//! texts, or one in the joint form.
#![tactic(auto)]

mod joint;
mod rehearsing;
mod running;

pub use joint::joint_text;
pub use rehearsing::rehearse_text;
