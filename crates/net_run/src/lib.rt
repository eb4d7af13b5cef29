//! The run of a flat net: its outputs at each event, as lines or as waves.
#![tactic(auto)]

mod running;
mod waving;

pub use running::run;
pub use waving::run_waves;
