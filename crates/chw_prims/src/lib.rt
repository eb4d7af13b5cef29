//! The primitives of the language and their types.
#![tactic(auto)]

mod build;
pub mod laws;
pub mod name_laws;
pub mod names;
pub mod prim;
pub mod row;
pub mod schemas;
mod signals;
mod signature;
mod vectors;
mod words;

pub use names::{ALL, name, named};
pub use prim::Primitive as Prim;
pub use row::Row;
pub use schemas::schema;
