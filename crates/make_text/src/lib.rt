//! The text that `make` compiles: a filter of so many taps in one clock domain, of which the sum is taken over into another one.
#![tactic(auto)]

pub mod laws;
mod pieces;
mod text;

pub use text::make_text;
