//! The rule that gives names to operands, tried on a term at a place: the answer is the term that the rule makes, or that it makes none.
#![tactic(auto)]

mod arguments;
mod counts;
mod finding;
mod operands;
mod parts;
mod results;
pub mod trial;

pub use trial::try_operands;
