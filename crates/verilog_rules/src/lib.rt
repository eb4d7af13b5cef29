//! The rules on a Verilog text, and the text with each name resolved to a wire.
//!
//! The rules are lists of checks, in `specs/`.
#![tactic(auto)]

pub mod fault;
pub mod laws;
pub mod resolved;

pub use fault::{VCode, VFault};
pub use resolved::{Address, Driver, Kind, Operand, RamOf, Resolved, ResolvedModule, Value, Wire};
