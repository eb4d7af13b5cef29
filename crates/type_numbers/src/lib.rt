//! Types by number. Two types of one number in a table are equal, and no look at their parts is needed to tell so. Equal types that are put
//! into a table get one number, but no clause says this.
#![tactic(auto)]

mod node;
mod table;

pub use table::TypeTable;
