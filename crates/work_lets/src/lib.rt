//! The rules that take bindings out of a letrec: those that the body doesn't reach go, and one of a type that isn't named is put for its
//! name. Each is tried on a term at a place, and the answer is the term that the rule makes, or that it makes none.
#![tactic(auto)]

mod closing;
mod dead;
mod groups;
mod inline;
mod noting;
mod reached;
pub mod trial;

pub use trial::try_work_lets;
