//! The texts of commands, and the groups that they make.

pub(crate) mod group_lines;
pub(crate) mod open_group;
pub(crate) mod words;
