//! Events and histories: what ticks and what comes in, event by event. Contracts above speak of time by these.
#![tactic(auto)]

pub mod event;

pub use chw_bits::Bits;
pub use event::{Event, Port, Ports};
