//! What the type of a term is found over: what is kept of the program, and the types of the variables in scope.
#![tactic(auto)]

pub mod constructors;
pub mod fields;
pub mod numbering;
pub mod signature;
pub mod vars;
