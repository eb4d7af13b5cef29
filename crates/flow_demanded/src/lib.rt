//! The rules on arguments that a primitive looks at: a letrec, and a case, moves out of them. Each is tried on a term at a place, and the
//! answer is the term that the rule makes, or that it makes none.
#![tactic(auto)]

mod demands;
mod forms;
mod looks;
mod moves;
pub mod trial;

pub use trial::try_demanded;
