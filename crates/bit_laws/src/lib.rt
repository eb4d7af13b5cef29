//! The net of single bits that a flat net becomes, the bits of its names, and laws of both.
//! Nothing here runs in the program.
//!
//! The definitions stand in `specs/`; each law is the contract of a call that does nothing.
#![tactic(auto)]

pub mod examples;
pub mod laws;
