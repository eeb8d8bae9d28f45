//! Tests of rows and views by their public calls.
#![tactic(auto)]

#[cfg(test)]
mod caching;
#[cfg(test)]
mod ending;
#[cfg(test)]
mod viewing;
