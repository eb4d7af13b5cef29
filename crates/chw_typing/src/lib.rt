//! The types of terms: which terms have which types, and which programs are typed. This is what a reader must believe.
//!
//! Laws of typed terms, and of their parts: groups of bindings and where variables occur; children and parts by their numbers; what a type
//! needs of the parts of its term; types of spines; types that get a name of their own; types that are the same up to naturals; the type
//! that is found for a term; typing around a place.
//!
//! Two things run in the program. One is the part of a term at a path, and another term put there, where a part is a whole spine. The other
//! is a type whose naturals are written without parts that don't matter, as in `n + 0 * (n * n)` the second: a kind limits the degree of
//! naturals, and of types that are the same up to naturals these have the least degree.
//!
//! The definitions stand in `specs/`; each law or example is the contract of a call that does nothing.
#![tactic(auto)]

pub mod context_laws;
pub mod examples;
mod finding;
pub mod found_examples;
pub mod found_laws;
pub mod group_examples;
pub mod group_laws;
pub mod laws;
pub mod leaving;
pub mod like_laws;
pub mod named_laws;
pub mod part_laws;
pub mod path_examples;
pub mod path_laws;
mod putting;
pub mod spine_laws;
pub mod typed_part_laws;
mod zeros;

pub use finding::part;
pub use leaving::without_zeros;
pub use putting::set_part;
