//! The parser of Verilog texts: makes a tree of tokens, or finds the first token with which no text goes on.
#![tactic(auto)]

mod cursor;
mod items;
mod parsing;
mod row_slots;
mod rows;
mod slot;
mod whole_rows;
mod words;

pub use cursor::SyntaxFault;
pub use parsing::parse;
