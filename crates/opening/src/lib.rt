//! The state with which a program opens: the call of its top, typed where the program is.
#![tactic(auto)]

pub mod laws;
mod state;

pub use state::open;
