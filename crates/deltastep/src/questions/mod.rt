//! Searches that end as soon as a question is answered.

mod asked;
pub(crate) mod guided;
pub(crate) mod nearest;
pub(crate) mod reach;
pub(crate) mod target;
