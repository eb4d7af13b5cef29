//! Texts of nets of single bits, in BLIF: which texts are nets, which net each is, what is wrong
//! with the others, the printer, and the laws that tie them to the printed text.
#![tactic(auto)]

pub mod fault;
mod header;
pub mod laws;
mod names;
mod nodes;
mod pieces;
mod printer;
mod rows;
mod words;

pub use fault::{BlifCode, BlifFault};
pub use printer::print;
