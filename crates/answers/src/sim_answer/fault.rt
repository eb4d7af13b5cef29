//! Why a text can't be simulated.

use stimulus::StimFault;
use thiserror::Error;

/// Why a text is no stimulus of values for a program.
#[derive(Clone, Copy, Debug, PartialEq, Eq, Error)]
pub enum SimFault {
    /// The text is no stimulus for the program's ports: the first line that isn't taken.
    #[error("{0}")]
    Stimulus(StimFault),
    /// The text is one, and this is the first line, counted from 1, with bits that encode no value of their input's type.
    #[error("S04 line {line}")]
    Value { line: u32 },
}
