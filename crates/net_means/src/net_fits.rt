//! What is built of a typed normal form is well formed. Nothing here runs in the program.
//!
//! The definitions are in `specs/`; each law is the contract of a call that does nothing.

pub mod laws;
