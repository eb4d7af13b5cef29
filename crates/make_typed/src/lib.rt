//! The description of a filter, as `make` compiles it, breaks no restriction on names and types.
#![tactic(auto)]

pub mod laws;
