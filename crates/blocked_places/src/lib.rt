//! What blocks the rewriting of a term at an active place: a cycle of bindings, a payload that isn't representable, or a limit. The first
//! blocked place of a body is found by a walk over its leading lambdas and its active places in the order of their paths.
#![tactic(auto)]

pub mod block;
pub mod bodies;
mod cycles;
mod limits;
mod payloads;
mod sizes;
mod trail;
mod types;
mod walk;
mod widths;

pub use block::{Block, block_at};
pub use bodies::{BlockedPart, first_blocked};
