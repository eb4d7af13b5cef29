//! The bits of a net of modules, instance by instance, and the law that they are those of its flat net. Nothing here runs in the program.
//!
//! The definitions stand in `specs/`; each law is the contract of a call that does nothing.
#![tactic(auto)]

pub mod laws;
