//! The rules on functions: a type lambda, a lambda, a letrec or a case that is applied. Each is tried on a term at a place, and the answer
//! is the term that the rule makes, or that it makes none.
#![tactic(auto)]

mod cases;
mod functions;
pub mod trial;

pub use trial::try_function;
