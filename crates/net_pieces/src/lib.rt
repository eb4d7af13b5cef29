//! The pieces of a net, made: a module so far, and for each table of `net_built` a call that appends the piece that the table has.
#![tactic(auto)]

pub mod cells;
pub mod choices;
pub mod copies;
pub mod data;
pub mod memories;
pub mod parts;
pub mod vectors;
pub mod words;

pub use cells::Pieces;
