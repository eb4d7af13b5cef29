//! Places where no rule acts and that nothing blocks: which terms can't be there, and what is
//! known of those that can. Nothing here runs in the program.
//!
//! The definitions are in `specs/`; each law is the contract of a call that does nothing.
#![tactic(auto)]

pub mod laws;
