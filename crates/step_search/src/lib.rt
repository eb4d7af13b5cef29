//! The search for the first step of a state, from a place on.
//!
//! A search goes over the made definitions in turn, of each over the active places in the order of
//! their paths, and at each place over the rules in their order. It begins at the place of the step
//! before, since nothing before that place can be rewritten.
//! Right sides that are quiet are passed over, since no rule acts there.
#![tactic(auto)]

pub mod examples;
pub mod finder;
mod in_bodies;
pub mod laws;
mod passing;
mod paths;
pub mod place;
mod search;
pub mod state;
mod trail;

pub use finder::Finder;
pub use place::Found;
pub use state::{next, next_from};
