//! That what a rule makes of a term acts as the term: each rule by itself, then in place, and as the body of a made definition. Nothing
//! here runs in the program.
//!
//! A term with a part that acts as the one in its place acts as the whole. The statements stand in `specs/`; each law is the contract of a
//! call that does nothing.
#![tactic(auto)]

pub mod case_laws;
pub mod context_laws;
pub mod let_laws;
pub mod name_laws;
pub mod prim_laws;
pub mod rule_laws;
pub mod signal_laws;
pub mod step_laws;
