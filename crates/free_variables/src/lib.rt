//! The free variables of a term, in the order in which they occur.
#![tactic(auto)]

mod free;
mod gathering;

pub use free::{free_in, occurring_in};
