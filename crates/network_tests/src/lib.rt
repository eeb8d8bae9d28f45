//! Tests of networks, arcs grouped by tail, stored networks that are brought to a new map, and queues of nodes, by their public calls.
#![tactic(auto)]

#[cfg(test)]
mod changing;
#[cfg(test)]
mod grouping;
#[cfg(test)]
mod queues;
#[cfg(test)]
mod stepping;
#[cfg(test)]
mod upgrading;
