//! The flat net of a net.
#![tactic(auto)]

mod copies;
pub mod examples;
pub mod flatten;
mod instances;
pub mod laws;
mod moves;
mod parts;
mod sizes;
mod tables;

pub use flatten::TooLarge;
