//! A step of rewriting leaves no instance before its place. Nothing here runs in the program.
//!
//! The definitions stand in `specs/`; each law is the contract of a call that does nothing.
#![tactic(auto)]

pub mod examples;
pub mod laws;
