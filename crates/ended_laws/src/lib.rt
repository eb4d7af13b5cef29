//! No state is stuck: a typed state in which no rule has an instance is normal, or a place of it is
//! blocked. Nothing here runs in the program.
//!
//! The statements are in `specs/`; each law is the contract of a call that does nothing.
#![tactic(auto)]

pub mod laws;
