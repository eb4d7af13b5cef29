//! Trials of the rules on a term: the first one with an instance, how it changes the term, and the
//! made definition that it adds.
//!
//! What tries the rules is a trait, `Rules`. So the search for a step and a run are proved without
//! the crates of the rules, and aren't proved again where one of these changes.
#![tactic(auto)]

pub mod rules;
pub mod trial;

pub use rules::Rules;
pub use trial::{Change, Trial};
