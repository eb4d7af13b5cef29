//! The forms of names: which bytes they begin with, and which come after.
#![tactic(auto)]

pub mod forms;
