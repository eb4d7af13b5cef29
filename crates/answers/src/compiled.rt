//! What a program is compiled to: the net that is built of its normal form, the flat net, and an order of its cells.

pub mod compiling;
pub mod fault;
pub mod laws;
mod states;

pub use compiling::{Compiled, compile};
pub use fault::CompileFault;
