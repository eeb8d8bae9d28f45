//! Queues that keep nodes in buckets by value. They return the least bucket as a whole.
#![tactic(auto)]

mod nodes;
mod ordered;
mod placed;
mod places;
mod queue;
mod ring;

pub use ordered::OrderedBuckets;
pub use places::Places;
pub use queue::BucketQueue;
pub use ring::{RingBuckets, buckets_between, next_marked};
