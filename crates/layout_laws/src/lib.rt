//! Laws of layouts: one numbering of constructors, one layout of types that are the same, a zero of each type, and the leaves of ports. Nothing
//! here runs in the program.
//!
//! The definitions stand in `specs/`; each law is the contract of a call that does nothing.
#![tactic(auto)]

pub mod laws;
