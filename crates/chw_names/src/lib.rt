//! The names of a description: the first that is declared twice in one place, and the first that nothing declares.
#![tactic(auto)]

mod declare;
pub mod globals;
pub mod least;
mod literals;
mod patterns;
mod space;
mod twice_terms;
pub mod twices;
mod unknown_terms;
mod unknown_types;
pub mod unknowns;

pub use globals::Globals;
pub use twices::twice;
pub use unknowns::unknown;
