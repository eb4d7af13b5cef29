//! The names of a description, found by few comparisons whatever they are: those of one name space in the order in which they were
//! declared, and those of the binders that are open at a place.
#![tactic(auto)]

pub mod laws;
pub mod scope;
pub mod space;

pub use scope::Scope;
pub use space::Declared;
