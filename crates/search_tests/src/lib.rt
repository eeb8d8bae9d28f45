//! Tests of teams and of searches by their public calls.
#![tactic(auto)]

#[cfg(test)]
mod counting;
#[cfg(test)]
mod relaxing;
#[cfg(test)]
mod searching;
#[cfg(test)]
mod suiting;
