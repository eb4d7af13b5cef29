//! Facts on types, layouts, meanings, cells and nets, on which the laws of built nets stand. Nothing here runs in the program.
//!
//! The statements stand in `specs/`; each law is the contract of a call that does nothing.
#![tactic(auto)]

pub mod laws;
