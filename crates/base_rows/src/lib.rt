//! Tests of the ground: indices, lists, shelves and sinks.
#![tactic(auto)]

#[cfg(test)]
mod lists;
#[cfg(test)]
mod shelves;
#[cfg(test)]
mod sinks;
