//! What a program and a stimulus are simulated to: the lines of what the program means, or why the text is refused.

pub mod fault;
mod inputs;
pub mod laws;
mod places;
mod simulating;
mod values;

pub use fault::SimFault;
pub use simulating::{events_of, lines_of};
