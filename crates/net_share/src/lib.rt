//! The net that is left of a flat net where equal wires are shared, and only what an output needs
//! is kept.
#![tactic(auto)]

mod copying;
mod making;
mod marking;
mod needed;
mod numbering;
mod planning;
mod ports;
mod renaming;
mod sharing;
mod standing;

pub use sharing::share;
