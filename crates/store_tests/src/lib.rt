//! Tests of stores by their public calls: which pages they have, what opening judges and in which order, commits, checkpoints, stops and refusals.
#![tactic(auto)]

#[cfg(test)]
mod bytes;
#[cfg(test)]
mod calls;
#[cfg(test)]
mod cuts;
#[cfg(test)]
mod fixed_disk;
#[cfg(test)]
mod judging;
#[cfg(test)]
mod living;
#[cfg(test)]
mod making;
#[cfg(test)]
mod memory;
#[cfg(test)]
mod old_files;
#[cfg(test)]
mod page_rows;
#[cfg(test)]
mod refusing;
#[cfg(test)]
mod steps;
#[cfg(test)]
mod stopping;
#[cfg(test)]
mod stores;
