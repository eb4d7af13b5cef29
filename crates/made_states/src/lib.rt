//! The states to which steps of all rules lead: they are typed, their origins stay and differ, and
//! their next step is sought from the place of the last one on. Nothing here runs in the program.
//!
//! The definitions stand in `specs/`; each law is the contract of a call that does nothing.
#![tactic(auto)]

pub mod laws;
