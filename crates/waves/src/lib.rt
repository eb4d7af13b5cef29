//! Waves: the clocks, resets, inputs and outputs of a simulation over time, and their text.
#![tactic(auto)]

mod codes;
mod event;
mod header;
pub mod laws;
mod pieces;
pub mod printer;
mod values;
pub mod wave;

pub use printer::VcdOut;
pub use wave::WaveVar;
