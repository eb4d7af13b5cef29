//! The net of a normal state, as `net_built` has it: its ports, the order of its modules, and each
//! module.
#![tactic(auto)]

pub mod building;
mod order;
mod outputs;
mod placed;
mod tops;

pub use building::build;
