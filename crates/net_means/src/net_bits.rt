//! The bits of built nets: all variables of all blocks of all instances have the bits that they mean. Nothing here runs in the program.
//!
//! The definitions and statements stand in `specs/`; each law is the contract of a call that does nothing.

pub mod laws;
