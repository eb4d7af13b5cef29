//! The lexer: cuts the text of a description into tokens, by the longest token at each place.
#![tactic(auto)]

mod front;
pub mod laws;
mod piece;
mod run;
mod splitting;
pub mod token;

pub use run::is_digit;
pub use splitting::{lex, word};
pub use token::{LexFault, Sort, Span, Token};
