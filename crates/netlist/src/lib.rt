//! Nets: modules of wires and cells, the order of a flat net's cells, and the bits of its wires at each event.
#![tactic(auto)]

pub mod cell;
pub mod examples;
pub mod laws;
pub mod net;
pub mod ordering;
pub mod samples;
mod waits;

pub use net::{Cell, Flat, Loop, Module, Net, Op1, Op2, Order, RamIn};
