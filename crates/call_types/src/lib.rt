//! The type that is found for a term that has one: of a call on terms by the type of its head, without a look at its arguments.
#![tactic(auto)]

mod calls;
mod typed;

pub use typed::type_at;
