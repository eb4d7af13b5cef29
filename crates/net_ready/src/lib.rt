//! What is ready to be built, over types and no wires, and the laws that it is built.
//! Nothing here runs in the program.
//!
//! The definitions are in `specs/`; each law is the contract of a call that does nothing.
#![tactic(auto)]

pub mod laws;
