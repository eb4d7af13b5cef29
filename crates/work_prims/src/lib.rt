//! The rules on primitives with all their arguments: one on vectors is written out, the element of a written vector is taken, and in
//! constants one on words is computed. Each is tried on a term at a place, and the answer is the term that the rule makes, or that it
//! makes none.
#![tactic(auto)]

mod elements;
mod given;
mod results;
pub mod trial;
mod unrolled;
mod widths;

pub use trial::try_prims;
