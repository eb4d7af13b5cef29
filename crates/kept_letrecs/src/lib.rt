//! Letrecs without arguments: which rules act on them, what keeps rules from them, and that this stays where a right side changes, and
//! where a letrec that is a right side joins. Nothing here runs in the program.
//!
//! The definitions stand in `specs/`; each law is the contract of a call that does nothing.
#![tactic(auto)]

pub mod laws;
