//! The printer: a net as Verilog text.
#![tactic(auto)]

mod assigns;
mod cells;
mod clocks;
mod header;
mod memories;
mod names;
mod operations;
mod pieces;
mod printer;
mod registers;
mod scope;
mod uses;
mod wires;

pub use printer::print;
