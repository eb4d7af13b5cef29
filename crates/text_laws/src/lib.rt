//! The canonical text of a description that the parser takes is taken by the parser.
#![tactic(auto)]

pub mod laws;
