//! Terms as lists of signs, with closed naturals as numbers. Two terms have the same signs exactly where they are the same tree, closed
//! naturals as numbers. So terms can be kept in a set of lists, which finds each in time linear in the term.
#![tactic(auto)]

pub mod alphabet;
pub mod laws;
mod terms;
mod types;

pub use alphabet::{Form, Sign};
pub use terms::signs_of;
