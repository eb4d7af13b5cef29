//! The table that steps a flat net: the bits of its wires, event by event.
#![tactic(auto)]

mod inputs;
mod keepers;
mod memory;
mod narrow;
mod narrow_step;
mod opening;
mod outputs;
mod planning;
mod reading;
mod room;
mod settle;
pub mod sim;
mod small;
mod small_step;
mod step;
mod tick;
mod wide;
mod wide_step;
mod word;
mod words;

pub use sim::Sim;
