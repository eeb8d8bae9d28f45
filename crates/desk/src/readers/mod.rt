//! The calls of readers and places, which take no lock.

pub(crate) mod pins;
pub(crate) mod places;
pub(crate) mod reader;
