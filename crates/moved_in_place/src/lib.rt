//! Terms that change in place: variables that are renumbered where they stand, a letrec that joins the one around it, and a part that
//! changes places with another term. Nothing is copied.
#![tactic(auto)]

mod joining;
pub mod laws;
mod lets;
mod numbers;
mod renaming;
mod swapping;
mod walk;
mod zeros;

pub use joining::join;
pub use numbers::Renumbering;
pub use renaming::{exchange, raise, renumber, renumber_group};
pub use swapping::swap_part;
