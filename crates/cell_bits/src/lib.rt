//! The bits of what is built: which bits the wires of a piece have where its cells have done what they do. Nothing here runs in the
//! program.
//!
//! The definitions are in `specs/`; each law is the contract of a call that does nothing.
#![tactic(auto)]

pub mod data_laws;
pub mod word_laws;
