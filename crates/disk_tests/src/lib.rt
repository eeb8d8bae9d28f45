//! Tests of disks in memory and in files, by their public calls.
#![tactic(auto)]

#[cfg(test)]
mod disks;
#[cfg(test)]
mod fakes;
#[cfg(test)]
mod opening;
#[cfg(test)]
mod paths;
#[cfg(test)]
mod real_files;
#[cfg(test)]
mod syncing;
