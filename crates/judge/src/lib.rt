//! What is found of made definitions that no rule rewrites: each is normal or blocked; and together they are a normal state of which none
//! uses itself, or are refused for the first reason that there is.
#![tactic(auto)]

pub mod judging;
mod lines;
pub mod states;

pub use judging::{Verdict, judge};
pub use lines::state_line;
pub use states::{BlockedAt, StateFault, judge_state};
