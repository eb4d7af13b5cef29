//! The rule of made definitions: a call, and a lifted function, become the name of a made definition on what is left of them. Where none
//! has the origin, there is one more.
#![tactic(auto)]

mod calls;
mod closing;
mod lifted;
mod numbers;
mod opened;
mod parameters;
pub mod trial;

pub use trial::{Special, try_special};
