//! The text of a filter, as `make` compiles it, is a description within the limits, and its program has known ports.
#![tactic(auto)]

pub mod laws;
