//! First steps of rewriting at a letrec that stands below the leading lambdas of a made definition,
//! and below it. Nothing here runs in the program.
//!
//! The definitions stand in `specs/`; each law is the contract of a call that does nothing.
#![tactic(auto)]

pub mod laws;
