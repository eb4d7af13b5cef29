//! The bits of right sides: where the variables of a right side have bits, on their thunks and on their wires, so has the right side. Nothing
//! here runs in the program.
//!
//! The definitions and statements stand in `specs/`; each law is the contract of a call that does nothing.

pub mod laws;
