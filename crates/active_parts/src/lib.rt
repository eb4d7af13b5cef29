//! The parts of a term that are active places: how many come into question, which of them are places, for what, and which variables are in
//! scope there.
//!
//! Parts have numbers, in the order of their paths. A walk over the active places at or below a term goes so:
//!
//! 1. `count_parts` says how many parts of the term come into question.
//! 2. `enter_group` puts the variables of `group_around_parts` into scope, for all of the parts.
//! 3. `part_at` gives the part of each number, where it is a place.
//! 4. At a part, the place takes its mode and whether it gives the result, and `enter` puts its own variables into scope.
//! 5. `leave` takes variables out of scope again.
//!
//! A walk that enters the same letrec again and again keeps `SpareTypes`: `leave_with_spare` puts the types there, and `enter_group_again`
//! takes those that are equal in place of copies.
#![tactic(auto)]

mod arguments;
mod cases;
mod demands;
mod elements;
pub mod ground;
mod letrecs;
pub mod modes;
mod naming;
pub mod parts;
pub mod paths;
pub mod scopes;
mod spare;

pub use ground::Ground;
pub use modes::mode_of;
pub use parts::{Part, count_parts, group_around_parts, part_at};
pub use paths::{PartPath, path_to};
pub use scopes::{enter, enter_group, leave};
pub use spare::{SpareTypes, enter_group_again, leave_with_spare};
