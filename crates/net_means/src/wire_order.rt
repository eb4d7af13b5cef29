//! The order in which the wires of a net's instances settle within an event. Nothing here runs in the program.
//!
//! The definitions and statements stand in `specs/`; each law is the contract of a call that does nothing.

pub mod laws;
