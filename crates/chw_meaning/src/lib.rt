//! The meaning of a description: which value a term has at a history, what a term gives, what an output of a program is at each event;
//! with the first laws of these, and worked examples. Nothing here runs in the program: it is what a reader must believe.
//!
//! The definitions stand in `specs/`; a law or an example is the contract of a call that does nothing.
#![tactic(auto)]

pub mod examples;
pub mod laws;
