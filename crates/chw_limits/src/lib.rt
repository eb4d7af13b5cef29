//! The limits on the tree of a description, of which the first that is passed is shown.
#![tactic(auto)]

pub mod first;
mod sought;
mod terms;
mod types;
pub mod which;

pub use first::first_passed;
pub use which::{Limit, Which};
