//! The kinds of the data types of a program, or a cycle of their references; and a cycle of the references of its definitions.
#![tactic(auto)]

mod circuits;
mod datas;
mod definitions;
mod defs;
pub mod examples;
pub mod kind_laws;
mod kinds;
pub mod laws;

pub use definitions::definition_cycle;
pub use kinds::find_kinds;
