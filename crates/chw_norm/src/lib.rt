//! Runs from the state with which a program opens, first step by first step, within a budget of
//! steps and the limits of a state: how many made definitions it holds, and how deep their bodies
//! are.
//!
//! Each step is found by a search that begins at the place of the step before. Many at once are made
//! in a letrec below leading lambdas.
#![tactic(auto)]

mod bodies;
mod going_on;
pub mod laws;
mod progress;
pub mod running;
mod top;

pub use running::{RunFault, run};
