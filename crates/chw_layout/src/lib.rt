//! How values lie in bits: the width of a type, or the first limit that it passes.
#![tactic(auto)]

pub mod laws;
mod measuring;
mod numbers;
pub mod outcome;
mod remembered;
pub mod value;
pub mod widths;

pub use outcome::{NoLayout, tag_width};
pub use value::{DataNode, DataValue};
pub use widths::width;
