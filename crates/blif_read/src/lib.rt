//! The reader of texts of nets of single bits.
//!
//! A text becomes statements, one for each line, by its form and by the places of its lines. Then
//! the rules on names and on the lengths of rows are looked at, and the net is made.
#![tactic(auto)]

mod bitnet;
mod lengths;
mod lines;
mod names;
mod places;
mod reading;
mod said;
mod saying;
mod statement;
mod words;

pub use bitnet::{Bitnet, Node};
pub use reading::read;
