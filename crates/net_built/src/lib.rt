//! What net is built of a normal form, and what is promised of it. Nothing here runs in the program.
//!
//! The definitions are in `specs/`; each law or example is the contract of a call that does nothing.
#![tactic(auto)]

pub mod examples;
pub mod laws;
