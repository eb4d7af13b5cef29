//! Whether a tidy program is typed: the program, or its first fault.
//!
//! `kinds` has the first declaration in which a written type has no kind that it may have there, and `cases` the first case that leaves out
//! a constructor or a default.
#![tactic(auto)]

mod bodies;
mod cases;
pub mod checking;
mod counting;
pub mod fault;
pub mod kinds;
pub mod laws;
mod names;
mod ports;

pub use checking::{Checked, check};
pub use fault::TypeFault;
