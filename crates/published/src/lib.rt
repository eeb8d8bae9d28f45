//! The shown view, as readers see it: they wait for nobody, and see what was published. What a reader sees begins with everything that it has seen before
//! and everything that it has learned of.
#![tactic(auto)]

mod published;
mod publishers;
mod readers;
mod rules;
mod seats;
mod shown;

pub use published::Published;
pub use publishers::Publisher;
pub use readers::ShownReader;
pub use shown::Shown;
