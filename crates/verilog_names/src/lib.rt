//! The names of a Verilog text, each of which is resolved to a wire, a clock or a module.
#![tactic(auto)]

mod clocks;
mod forms;
mod items;
mod known;
mod modules;
mod once;
mod places;
mod ports;
mod resolving;
mod uses;
mod values;
mod wires;

pub use resolving::{NameFault, resolve};
