//! Laws of types that are the same, of their kinds, and of what is put into them.
#![tactic(auto)]

pub mod laws;
