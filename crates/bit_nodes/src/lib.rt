//! The nodes of a net of single bits, as the program holds them: small values, named by numbers.
//! Nothing here runs.
//!
//! What they stand for is said in `specs/`, by the definitions of `bit_laws`.
#![tactic(auto)]

pub mod nodes;

pub use nodes::{BitGate, BitName, BitNode};
