//! The net of single bits that a flat net becomes.
//!
//! Its nodes are counted first, so that a net with too many of them is refused before one is made.
//! Each kind of cell has a call that adds its nodes behind those made so far, the least significant
//! bit first. The names that nodes read and drive are worked out by numbers.
#![tactic(auto)]

mod blasting;
mod cells;
mod comparisons;
mod counting;
mod gates;
pub mod limit;
mod logic;
mod names;
mod numbers;
mod operations;
mod products;
mod rams;
mod registers;
mod shifts;
mod sums;
mod wiring;

pub use blasting::blast;
pub use limit::{BIT_NODES, TooMany};
