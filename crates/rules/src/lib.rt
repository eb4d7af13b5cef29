//! All rules, tried on a term at a place: one rule's instance on the term, and the first rule with
//! an instance, how it changes the term, and the made definition that it adds.
#![tactic(auto)]

pub mod all;
pub mod first;
pub mod laws;
pub mod trial;
mod typing;

pub use all::AllRules;
pub use first::first_rule;
pub use trial::{joins_typed, try_rule, try_typed};
pub use typing::is_typed;
