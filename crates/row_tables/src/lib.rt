//! Tables of tests: a row is a line of a file, and a program writes each row with what its call gives.
#![tactic(auto)]

pub mod table;
pub mod text;

pub use table::{Unread, print_rows, put};
pub use text::{bytes_of, put_bytes, put_number, words_of};
