//! The five lines of `make`: its stimulus, and what is counted and summed up of the filter that is compiled and simulated.

mod events;
pub mod laws;
mod pieces;
mod printing;
mod sums;
pub mod tally;

pub use events::make_stimulus;
pub use printing::lines;
pub use tally::{Tally, tally_of};
