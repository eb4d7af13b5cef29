//! How many nodes a net of single bits may have.

use thiserror::Error;

/// The most nodes of a net of single bits.
pub const BIT_NODES: u32 = 500_000;

/// The net of single bits has more nodes than it may have.
#[derive(Clone, Copy, Debug, PartialEq, Eq, Error)]
#[error("there are too many single bits")]
pub struct TooMany;
