//! The rules of rewriting keep types and complete cases. Nothing here runs in the program.
//!
//! The statements stand in `specs/`; each law is the contract of a call that does nothing.
#![tactic(auto)]

pub mod laws;
