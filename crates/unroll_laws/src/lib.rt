//! That unrolling a primitive on vectors keeps its type. Nothing here runs in the program.
//!
//! The definitions stand in `specs/`; each law or example is the contract of a call that does nothing.
#![tactic(auto)]

pub mod examples;
pub mod laws;
