//! Values as bits, and bits as values.
#![tactic(auto)]

mod constructors;
pub mod decoding;
pub mod encoding;
mod known_width;

pub use decoding::decode;
pub use encoding::encode;
