//! The rules on the names of definitions and on functions that have none: a name becomes what it stands for, and a lifted function gets a
//! lambda for each parameter. Each is tried on a term at a place, and the answer is the term that the rule makes, or that it makes none.
#![tactic(auto)]

mod eta;
mod parameters;
pub mod trial;
mod unfold;

pub use trial::try_names;
