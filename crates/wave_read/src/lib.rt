//! Waves read of their text: the words, the form, and the rules on codes, widths and times.
#![tactic(auto)]

mod codes;
mod definitions;
mod denoting;
mod items;
mod moments;
mod numbers;
mod reading;
mod rows;
mod rules;
mod slots;
mod source;
mod times;
mod words;

pub use reading::read_vcd;
