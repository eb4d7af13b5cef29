//! Normal states of which no made definition uses itself, which are what a net is built of; or a cycle of uses.
#![tactic(auto)]

mod order;
pub mod states;
#[cfg(test)]
mod tests;
pub mod uses;

pub use states::Normal;
