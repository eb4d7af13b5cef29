//! The first declaration of a program in which a written type has no kind that it may have there.
mod fields;
pub mod first;
mod terms;

pub use first::{Unkinded, first_unkinded};
