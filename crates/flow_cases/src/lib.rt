//! The rules on cases: a case on a constructor or a literal, on a letrec, on another case, and on a port of a circuit. Each is tried on a
//! term at a place, and the answer is the term that the rule makes, or that it makes none.
#![tactic(auto)]

mod alternatives;
mod cases;
mod constructors;
mod given;
mod lets;
mod parts;
mod projections;
pub mod trial;

pub use trial::try_cases;
