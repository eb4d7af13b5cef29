//! Laws of values that hold bits: when the thunks of a term's variables carry bits, which bits the
//! term carries. Nothing here runs in the program.
//!
//! The definitions and statements stand in `specs/`; each law is the contract of a call that does
//! nothing.
#![tactic(auto)]

pub mod examples;
pub mod laws;
