//! What a Verilog text and a stimulus are run to: the flat net of the text, and the lines of its outputs.
#![tactic(auto)]

pub mod circuit;
pub mod fault;
pub mod laws;
mod stepping;

pub use circuit::{Circuit, circuit_of};
pub use fault::CircuitFault;
pub use stepping::lines_of;
