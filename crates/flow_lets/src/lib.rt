//! The rule that joins letrecs: a letrec that is a right side or the body of another becomes part of it. It is tried on a term at a
//! place, and the answer is the term that the rule makes, or that it makes none. A test says whether it makes one, and makes nothing.
#![tactic(auto)]

mod joining;
mod parts;
pub mod trial;

pub use trial::{joins, try_lets};
