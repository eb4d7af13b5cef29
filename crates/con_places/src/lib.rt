//! The constructors of a program in a table, so that what constructor a number stands for is found without a search.
#![tactic(auto)]

pub mod table;
#[cfg(test)]
mod tests;

pub use table::{Constructor, Constructors};
