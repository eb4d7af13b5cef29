//! The Verilog text of a net, and the net that a Verilog text denotes, as definitions with their laws.
#![tactic(auto)]

pub mod examples;
pub mod laws;
