//! What is the same at every history: terms of a type of values, and thunks that are made of such terms. Nothing here runs in the program.
//!
//! The definitions stand in `specs/`; each law or example is the contract of a call that does nothing.
#![tactic(auto)]

pub mod examples;
pub mod laws;
