//! The rules that a net keeps: names, widths, drivers and limits of its modules, and the first rule that a net breaks.
#![tactic(auto)]

pub mod well_formed;

pub use well_formed::{NetCode, NetFault};
