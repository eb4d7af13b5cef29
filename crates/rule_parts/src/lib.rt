//! What the crates of rules share: what it means that a rule makes something of a term at a place, and the copies that rules write.
#![tactic(auto)]

pub mod copies;
pub mod laws;
pub mod named;
