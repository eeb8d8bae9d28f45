//! The texts of networks.

pub(crate) mod gr;
mod gr_lines;
mod problem;
pub(crate) mod reading;
