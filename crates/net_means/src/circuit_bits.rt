//! The bits of right sides of circuits: where the leaves that a right side takes have bits at a history, on their thunks and on their wires, so
//! has its own leaf. Nothing here runs in the program.
//!
//! The definitions and statements stand in `specs/`; each law is the contract of a call that does nothing.

pub mod examples;
pub mod laws;
