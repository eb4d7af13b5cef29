//! Why a text is no wave.

use thiserror::Error;

/// What a text breaks. Each is looked for in the whole text before the next.
#[derive(Clone, Copy, Debug, PartialEq, Eq, Error)]
pub enum VcdCode {
    /// The text isn't of the form, or a number doesn't fit its type.
    #[error("X01")]
    X01,
    /// A code is declared twice, or unknown.
    #[error("X02")]
    X02,
    /// A change hasn't as many bits as its variable.
    #[error("X03")]
    X03,
    /// A time isn't greater than the one before.
    #[error("X04")]
    X04,
}

/// What a text breaks first, and the place of the first byte of it.
///
/// Where a text ends too early, that is its length.
#[derive(Clone, Copy, Debug, PartialEq, Eq, Error)]
#[error("{code} byte {at}")]
pub struct VcdFault {
    pub code: VcdCode,
    pub at: u32,
}
