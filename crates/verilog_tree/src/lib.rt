//! The tree of a Verilog text: its modules, with the places of what they name.
#![tactic(auto)]

pub mod item;
pub mod laws;
pub mod module;
pub mod right;
pub mod word;

pub use item::{Access, Connection, Edge, FirstWord, Item, Memory, Ram, Reset, Use};
pub use module::{Module, Port, Tree};
pub use right::{Join, Right};
pub use word::{Line, Range, Word};
