//! Why a text is no stimulus.

use thiserror::Error;

/// What a line of a stimulus breaks.
#[derive(Clone, Copy, Debug, PartialEq, Eq, Error)]
pub enum StimCode {
    /// The line isn't of the form.
    #[error("S01")]
    S01,
    /// The line names a domain or an input that isn't there, or a reset of a domain without one.
    #[error("S02")]
    S02,
    /// The line has digits that aren't of their input's width.
    #[error("S03")]
    S03,
    /// There are too many events, or too many bytes.
    #[error("S05")]
    S05,
}

/// The first line of a text that isn't taken, counted from 1, and why.
///
/// A text that is too long has line 0.
#[derive(Clone, Copy, Debug, PartialEq, Eq, Error)]
#[error("{code} line {line}")]
pub struct StimFault {
    pub code: StimCode,
    pub line: u32,
}
