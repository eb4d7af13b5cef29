//! Graphs of references: an order in which each node stands after all that it refers to, or a cycle of references.
#![tactic(auto)]

mod cycle;
mod graph;
pub mod laws;
mod ordering;
mod search;

pub use graph::Graph;
pub use ordering::{Ordering, order_of};
