//! Which types are ports and which are representable, and the text of a type.
#![tactic(auto)]

pub mod port_table;
pub mod ports;
pub mod representation;
mod rows;
pub mod text;

pub use port_table::{PortForm, PortTable};
pub use ports::{Leaf, leaves};
pub use representation::representable;
pub use text::type_text;
