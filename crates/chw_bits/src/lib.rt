//! `Bits`, a list of bits of any length, with the number that it means and its hexadecimal text.
//!
//! `machine` has the arithmetic of words of at most 128 bits, on their numbers.
#![tactic(auto)]

pub mod bits;
pub mod hex;
pub mod laws;
pub mod machine;
mod places;
pub mod read_hex;

pub use bits::{Bits, DoesNotFit};
pub use read_hex::HexFault;
