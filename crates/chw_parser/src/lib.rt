//! The parser: reads the tree of a description from its tokens.
#![tactic(auto)]

mod declaration_rules;
pub mod laws;
mod machine;
mod parsing;
mod production;
mod symbol;
mod term_rules;
mod type_rules;

pub use parsing::{ParseFault, parse};
