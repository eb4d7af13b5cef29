//! The table of made definitions, in which each is found by its origin.
#![tactic(auto)]

pub mod definitions;

pub use definitions::{Table, TableFull};
