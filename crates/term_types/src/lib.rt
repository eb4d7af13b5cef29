//! The type of a term: found where the term has one, and else it has none.
//!
//! Types and kinds are found together on one walk over the term, so that no kind of a type and no type of a term is found twice on the way
//! up. The walk calls itself only into parts of the term.
#![tactic(auto)]

mod alternatives;
mod groups;
mod heads;
mod patterns;
pub mod typing;
mod walk;

pub use term_frames::signature;
pub use term_frames::signature::Signature;
pub use typing::{type_in_scope, type_of, type_of_in};
