//! The parts of a tree that the parser has read, and what it makes of them.
#![tactic(auto)]

mod acting;
mod action;
mod declarations;
mod heights;
mod parts;
mod pops;
mod stack;
mod terms;
mod types;
mod value;

pub use action::Action;
pub use parts::Parts;
pub use stack::Stack;
pub use value::Value;
