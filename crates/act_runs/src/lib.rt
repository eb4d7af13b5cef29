//! That what every rule makes in a typed state acts as what it was made of, that in each state of a
//! run of rewriting every body acts as its origin, and that a made definition as a whole gives
//! nothing that its origin doesn't. Nothing here runs in the program.
//!
//! The statements stand in `specs/`; each law is the contract of a call that does nothing.
#![tactic(auto)]

pub mod laws;
