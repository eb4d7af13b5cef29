//! The printer of descriptions: the canonical text of a tree.
#![tactic(auto)]

mod declarations;
mod heads;
mod pieces;
mod printer;
mod terms;
mod types;

pub use printer::print;
