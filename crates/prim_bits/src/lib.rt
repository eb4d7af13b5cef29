//! The values of the primitives on words: the bits that each gives on bits.
//!
//! `apply` computes a value where no width is over 128, by the arithmetic of `chw_bits::machine`.
//! The definitions that it is proved against speak of bits of any width, and of the integers that they mean.
#![tactic(auto)]

mod arithmetic;
mod bitwise;
mod comparisons;
pub mod laws;
mod reductions;
mod reshaping;
mod shifts;
pub mod values;
pub mod widths;
mod words;

pub use values::{apply, result_at};
pub use widths::width_at;
