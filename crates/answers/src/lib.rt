//! What the commands answer that go through a net: the net that a program is compiled to, the lines of `simulate`, and those of `make`.
#![tactic(auto)]

pub mod compiled;
pub mod make_answer;
pub mod sim_answer;
