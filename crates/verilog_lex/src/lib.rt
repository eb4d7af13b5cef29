//! The lexer of Verilog texts: cuts a text into tokens, by the longest token at each place.
#![tactic(auto)]

mod front;
pub mod laws;
mod piece;
mod run;
mod splitting;
pub mod token;
mod words;

pub use splitting::lex;
pub use token::{Keyword, NoToken, Placed, Sign, Token};
