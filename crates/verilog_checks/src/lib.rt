//! The least place at which a rule is broken, and what the words of a text write.
#![tactic(auto)]

pub mod cut;
pub mod least;
pub mod literals;
pub mod numbers;

pub use least::Least;
