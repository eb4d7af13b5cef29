//! Rewriting. Scenes: programs with made definitions, as rules see them, where these come from, and which types a mode names. The places of
//! a term at which rules may act, with their modes. The rules: what each makes of a term at a place, and that it is one term. Nothing here
//! runs in the program.
//!
//! The definitions stand in `specs/`; each law or example is the contract of a call that does nothing.
#![tactic(auto)]

pub mod place_examples;
pub mod place_laws;
pub mod rule_examples;
pub mod rule_laws;
pub mod scene_examples;
pub mod scene_laws;
