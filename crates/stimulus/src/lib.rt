//! The stimulus of a run.
//!
//! Its text is read to events, and each event's outputs are printed as a line.
#![tactic(auto)]

pub mod cut;
mod event;
pub mod fault;
mod form;
pub mod laws;
mod names;
mod printing;
mod reading;
mod words;

pub use fault::{StimCode, StimFault};
pub use printing::print_line;
pub use reading::read_stimulus;
