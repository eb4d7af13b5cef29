//! The program of a description: its names become numbers, and the first name or reference that is at fault is told.
#![tactic(auto)]

mod binders;
mod built_in;
mod cycles;
mod declarations;
pub mod fault;
pub mod laws;
mod literals;
mod names;
pub mod programs;
pub mod resolving;
mod terms;
mod types;

pub use fault::NameFault;
pub use programs::program_of;
pub use resolving::resolve;
