//! The first case of a program that leaves out a constructor, or else the first that leaves out a default.
//!
//! What is left out is read off the alternatives alone, so that it is said of programs that aren't typed too.
mod alternatives;
mod first;
mod lacks;
mod missing;
mod walk;

pub(crate) use first::first_incomplete;
pub use lacks::{Incomplete, Lacks};
