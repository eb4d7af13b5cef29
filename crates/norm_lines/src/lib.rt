//! The places of steps of rewriting, and the printed lines of a run: one for each step, and then one for each made definition.
#![tactic(auto)]

mod counts;
pub mod examples;
mod lines;
mod names;
mod pieces;
pub mod place;

pub use lines::put_lines;
pub use place::StepAt;
