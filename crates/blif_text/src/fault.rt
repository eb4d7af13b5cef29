//! Why a text is no net of single bits.

use thiserror::Error;

/// What a text breaks. Each is looked for in the whole text before the next.
#[derive(Clone, Copy, Debug, PartialEq, Eq, Error)]
pub enum BlifCode {
    /// A line isn't of the form or is out of place, or the text ends too early.
    #[error("B01")]
    B01,
    /// A name is unknown or driven twice, or a clock is no input `clk_D`.
    #[error("B02")]
    B02,
    /// A row hasn't as many marks as its table reads names.
    #[error("B03")]
    B03,
}

/// What a text breaks first, and the number of the line, from 1 on.
///
/// Of lines that are joined it is the first. Where a text ends too early, it is the last line of
/// the text, and 0 where there is none.
#[derive(Clone, Copy, Debug, PartialEq, Eq, Error)]
#[error("{code} line {line}")]
pub struct BlifFault {
    pub code: BlifCode,
    pub line: u32,
}
