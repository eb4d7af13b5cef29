//! The limits on a Verilog text.
#![tactic(auto)]

mod limiting;

pub use limiting::limits;
