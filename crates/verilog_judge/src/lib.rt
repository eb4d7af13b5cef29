//! The rules on the widths and the drivers of a Verilog text, and the net of a text that keeps them.
#![tactic(auto)]

mod building;
pub mod laws;
mod module_drivers;
mod module_widths;
mod parts;
mod registers;
mod sizes;

pub use building::net;
pub use module_drivers::drivers;
pub use module_widths::widths;
