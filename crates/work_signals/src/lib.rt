//! The rule that joins functions on signals, tried on a term at a place: the answer is the term that the rule makes, or that it makes
//! none.
#![tactic(auto)]

mod aps;
mod building;
mod composing;
mod finding;
mod fmaps;
pub mod trial;
mod views;

pub use trial::try_signals;
