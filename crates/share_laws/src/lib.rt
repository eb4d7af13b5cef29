//! The equal wires of a flat net, the net that is left where they are shared, and laws of both.
//! Nothing here runs in the program.
//!
//! The definitions stand in `specs/`; each law is the contract of a call that does nothing.
#![tactic(auto)]

pub mod examples;
pub mod laws;
