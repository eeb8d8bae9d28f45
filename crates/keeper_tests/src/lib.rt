//! Tests of keepers and ledgers by their public calls: worked rows, a disk that fails, and runs that are stopped at each of their calls.
#![tactic(auto)]

#[cfg(test)]
mod keeping;
#[cfg(test)]
mod playing;
#[cfg(test)]
mod sweeps;
