//! The net that a Verilog text denotes, or the first rule that the text breaks.
#![tactic(auto)]

pub mod laws;
pub mod printing;
pub mod reading;

pub use printing::{printed_and_read, readable_text};
pub use reading::read;
