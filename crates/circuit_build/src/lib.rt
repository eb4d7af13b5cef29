//! The modules of circuits: the bits of constants, and the cells of right sides, appended one behind the other as `net_built` has them.
#![tactic(auto)]

mod arguments;
pub mod bodies;
mod circuits;
mod constants;
pub mod ports;
mod projections;
mod signals;
mod views;
