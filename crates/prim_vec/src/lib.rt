//! Unrolling of the primitives on vectors: the term that takes the place of such a primitive with all its arguments.
//!
//! The arguments get names, and the result is written out with the elements of the vectors, each taken by its number. All primitives
//! on vectors are unrolled but those that take such an element.
#![tactic(auto)]

mod choices;
pub mod conditions;
mod elements;
mod folds;
mod indices;
mod made;
mod maps;
mod moves;
mod sizes;
pub mod unrolling;

pub use conditions::can_unroll;
pub use unrolling::unroll;
