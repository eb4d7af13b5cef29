//! When a term acts as another of its type: whatever its value is put to, the other's value does the same. Nothing here runs in the
//! program.
//!
//! The definitions stand in `specs/`; each law is the contract of a call that does nothing.
#![tactic(auto)]

pub mod examples;
pub mod laws;
