//! The type of a term at arguments, of which type arguments wait until the type is looked at; the kind of a type as it is found.
#![tactic(auto)]

pub mod kinding;
mod numbers;
pub mod spines;
