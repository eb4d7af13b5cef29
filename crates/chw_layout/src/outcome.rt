//! What types come to, and how the outcomes of parts make those of wholes.
ghost use Rattle.std.specs.Prelude.{◌≡◌};
ghost use Rattle.chw_layout.specs.Measured.{tag_width, scalar_measure, data_measure, vector_measure, tagged_measure};
ghost use Rattle.chw_layout.specs.Outcomes.{laid, number_of, outcome_at, after};

use chw_base::limits::{DATA_BITS, SCALAR_BITS, VECTOR_LENGTH};
use thiserror::Error;

/// Why the values of a type have no width.
#[derive(Clone, Copy, Debug, PartialEq, Eq, Error)]
pub enum NoLayout {
    /// The type isn't representable.
    #[error("the type has no values that are bits")]
    NotRepresentable,
    /// A scalar has this width, over 128 bits.
    #[error("a scalar of {0} bits")]
    Scalar(u32),
    /// Data or a vector has this width, over 4,096 bits. Widths end at 4,294,967,295.
    #[error("data of {0} bits")]
    Data(u32),
    /// A vector has this length, over 1,024 elements.
    #[error("a vector of {0} elements")]
    Length(u32),
}

/// What a type comes to: the natural that it means, which is 0 where it is none, or how its values are laid out.
#[derive(Clone, Copy, PartialEq, Eq)]
pub(crate) enum Outcome {
    Number(u32),
    /// The values have this width.
    Fits(u32),
    /// The first limit that the type passes.
    TooWide(NoLayout),
}

impl Outcome {
    /// The natural that the type means.
    pub(crate) fn number(self) -> u32
        ensures { result ≡ number_of self }
    {
        match self {
            Outcome::Number(n) => n,
            Outcome::Fits(_) => 0,
            Outcome::TooWide(_) => 0,
        }
    }
}

/// The outcome of a variable, where the last argument is the variable 0.
pub(crate) fn outcome_at(env: &[Outcome], at: u32) -> Outcome
    ensures { result ≡ outcome_at env.now at }
{
    let at = at as usize;
    if at < env.len() {
        env[env.len() - 1 - at]
    } else {
        Outcome::Number(0)
    }
}

/// The fewest bits that count so many constructors.
pub fn tag_width(count: usize) -> u32
    ensures { result ≡ tag_width count }
{
    if count < 2 {
        0
    } else {
        usize::BITS - (count - 1).leading_zeros()
    }
}

/// A scalar of this width.
pub(crate) fn scalar_outcome(width: u32) -> Outcome
    ensures { result ≡ laid (scalar_measure width) }
{
    if width <= SCALAR_BITS {
        Outcome::Fits(width)
    } else {
        Outcome::TooWide(NoLayout::Scalar(width))
    }
}

/// Data or a vector of this width.
fn wide_outcome(width: u32) -> Outcome
    ensures { result ≡ laid (data_measure width) }
{
    if width <= DATA_BITS {
        Outcome::Fits(width)
    } else {
        Outcome::TooWide(NoLayout::Data(width))
    }
}

/// A vector of this length, of elements with this outcome.
pub(crate) fn vector_outcome(len: u32, of: Outcome) -> Outcome
    ensures { result ≡ after (vector_measure len) of }
{
    match of {
        Outcome::Fits(width) => {
            if len <= VECTOR_LENGTH {
                wide_outcome(len.saturating_mul(width))
            } else {
                Outcome::TooWide(NoLayout::Length(len))
            }
        }
        Outcome::TooWide(limit) => Outcome::TooWide(limit),
        Outcome::Number(_) => Outcome::Number(0),
    }
}

/// Data with a tag of this width, whose widest constructor has this outcome.
pub(crate) fn tagged_outcome(tag: u32, widest: Outcome) -> Outcome
    ensures { result ≡ after (tagged_measure tag) widest }
{
    match widest {
        Outcome::Fits(width) => wide_outcome(tag.saturating_add(width)),
        Outcome::TooWide(limit) => Outcome::TooWide(limit),
        Outcome::Number(_) => Outcome::Number(0),
    }
}
