//! That there is a net of each finished state: what is in normal form is ready to be built. Nothing
//! here runs in the program.
//!
//! The statements are in `specs/`; each law is the contract of a call that does nothing.
#![tactic(auto)]

pub mod laws;
