//! The widths of types, each worked out once: a table that is lent to all who measure.
#![tactic(auto)]

mod measuring;
mod numbers;
mod outcome;
mod widths;

pub use widths::Widths;
