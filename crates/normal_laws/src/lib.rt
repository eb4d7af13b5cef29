//! What doesn't block a body in normal form. Nothing here runs in the program.
//!
//! The statements stand in `specs/`; each law is the contract of a call that does nothing.
#![tactic(auto)]

pub mod examples;
pub mod laws;
