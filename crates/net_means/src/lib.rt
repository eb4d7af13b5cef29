//! Built nets: they are well formed, and their outputs have the bits of what the program means. Nothing here runs in the program.
//!
//! The definitions and statements stand in `specs/`; each law is the contract of a call that does nothing.
#![tactic(auto)]

pub mod circuit_bits;
pub mod laws;
pub mod net_bits;
pub mod net_fits;
pub mod net_widths;
pub mod side_bits;
pub mod wire_order;
