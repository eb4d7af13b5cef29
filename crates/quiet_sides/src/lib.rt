//! Right sides at which no rule acts, by a look at their form: so a search for a step may pass over them.
//!
//! The definitions stand in `specs/`; the law is the contract of a call that does nothing.
#![tactic(auto)]

mod choices;
pub mod laws;
mod lifted;
mod names;
mod prims;
mod quiet;
mod written;

pub use quiet::is_quiet;
