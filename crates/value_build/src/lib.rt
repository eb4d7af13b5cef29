//! The modules of values: the cells of blocks, of right sides and of cases, appended one behind the other as `net_built` has them.
#![tactic(auto)]

pub mod arguments;
mod base;
mod blocks;
pub mod bodies;
mod cases;
mod constructors;
pub mod drafts;
pub mod fields;
mod passes;
pub mod places;
pub mod scope;
mod sides;
mod widths;

pub use base::Base;
pub use places::Places;
pub use type_widths::Widths;
