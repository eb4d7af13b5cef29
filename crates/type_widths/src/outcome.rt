//! What types come to, and how the outcomes of parts make those of wholes.
ghost use Rattle.std.specs.Prelude.{◌≡◌};
ghost use Rattle.type_widths.specs.Outcomes.{layout_of, told_of, number_of, outcome_at};
ghost use Rattle.type_widths.specs.Outcomes.{scalar_outcome, wide_outcome, vector_outcome};
ghost use Rattle.type_widths.specs.Outcomes.{tagged_outcome};
ghost use Rattle.type_widths.specs.Outcomes.{then_outcome, or_outcome};

use chw_base::Or;
use chw_base::limits::{DATA_BITS, SCALAR_BITS, VECTOR_LENGTH};
use chw_layout::NoLayout;

/// A limit that a type may pass.
#[derive(Clone, Copy, PartialEq, Eq, Hash)]
pub(crate) enum Limit {
    /// That of the width of a scalar.
    Scalar,
    /// That of the width of data or of a vector.
    Data,
    /// That of the length of a vector.
    Length,
}

impl Limit {
    /// Why a type that passes this limit has no width.
    fn passed_by(self, size: u32) -> NoLayout
        ensures { result ≡ layout_of self size }
    {
        match self {
            Limit::Scalar => NoLayout::Scalar(size),
            Limit::Data => NoLayout::Data(size),
            Limit::Length => NoLayout::Length(size),
        }
    }
}

/// What a type comes to.
#[derive(Clone, Copy, PartialEq, Eq, Hash)]
pub(crate) enum Outcome {
    /// It isn't representable. This is the natural that it means, and 0 where it is none.
    Number(u32),
    /// Each of its values has so many bits.
    Fits(u32),
    /// The first limit that it passes, and its size there.
    TooWide(Limit, u32),
}

impl Outcome {
    /// The natural that the type means.
    pub(crate) fn number(self) -> u32
        ensures { result ≡ number_of self }
    {
        match self {
            Outcome::Number(n) => n,
            Outcome::Fits(_) => 0,
            Outcome::TooWide(_, _) => 0,
        }
    }
}

/// The width, or why there is none.
pub(crate) fn told(outcome: Outcome) -> Result<u32, Or<NoLayout>>
    ensures { result ≡ told_of outcome }
{
    match outcome {
        Outcome::Number(_) => Err(Or::Fault(NoLayout::NotRepresentable)),
        Outcome::Fits(width) => Ok(width),
        Outcome::TooWide(limit, size) => Err(Or::Fault(limit.passed_by(size))),
    }
}

/// The outcome of a variable, where the last argument is the variable 0.
pub(crate) fn outcome_at(env: &[Outcome], at: u32) -> Outcome
    ensures { result ≡ outcome_at env.now at }
{
    let at = at as usize;
    if at < env.len() {
        env[env.len() - 1 - at]
    } else {
        Outcome::Number(0)
    }
}

/// A scalar of this width.
pub(crate) fn scalar_outcome(width: u32) -> Outcome
    ensures { result ≡ scalar_outcome width }
{
    if width <= SCALAR_BITS {
        Outcome::Fits(width)
    } else {
        Outcome::TooWide(Limit::Scalar, width)
    }
}

/// Data or a vector of this width.
fn wide_outcome(width: u32) -> Outcome
    ensures { result ≡ wide_outcome width }
{
    if width <= DATA_BITS {
        Outcome::Fits(width)
    } else {
        Outcome::TooWide(Limit::Data, width)
    }
}

/// A vector of this length, of elements of this outcome.
pub(crate) fn vector_outcome(len: u32, of: Outcome) -> Outcome
    ensures { result ≡ vector_outcome len of }
{
    match of {
        Outcome::Fits(width) => {
            if len <= VECTOR_LENGTH {
                wide_outcome(len.saturating_mul(width))
            } else {
                Outcome::TooWide(Limit::Length, len)
            }
        }
        Outcome::TooWide(limit, size) => Outcome::TooWide(limit, size),
        Outcome::Number(_) => Outcome::Number(0),
    }
}

/// Data with a tag of this width, whose widest constructor has this outcome.
pub(crate) fn tagged_outcome(tag: u32, widest: Outcome) -> Outcome
    ensures { result ≡ tagged_outcome tag widest }
{
    match widest {
        Outcome::Fits(width) => wide_outcome(tag.saturating_add(width)),
        Outcome::TooWide(limit, size) => Outcome::TooWide(limit, size),
        Outcome::Number(_) => Outcome::Number(0),
    }
}

/// A field of the first outcome before fields that come to the second.
pub(crate) fn then_outcome(first: Outcome, rest: Outcome) -> Outcome
    ensures { result ≡ then_outcome first rest }
{
    match first {
        Outcome::Number(_) => Outcome::Number(0),
        Outcome::Fits(width) => match rest {
            Outcome::Number(_) => Outcome::Number(0),
            Outcome::Fits(more) => Outcome::Fits(width.saturating_add(more)),
            Outcome::TooWide(limit, size) => Outcome::TooWide(limit, size),
        },
        Outcome::TooWide(limit, size) => match rest {
            Outcome::Number(_) => Outcome::Number(0),
            Outcome::Fits(_) => Outcome::TooWide(limit, size),
            Outcome::TooWide(_, _) => Outcome::TooWide(limit, size),
        },
    }
}

/// A constructor of the first outcome before constructors that come to the second.
pub(crate) fn or_outcome(first: Outcome, rest: Outcome) -> Outcome
    ensures { result ≡ or_outcome first rest }
{
    match first {
        Outcome::Number(_) => Outcome::Number(0),
        Outcome::Fits(width) => match rest {
            Outcome::Number(_) => Outcome::Number(0),
            Outcome::Fits(other) => Outcome::Fits(width.max(other)),
            Outcome::TooWide(limit, size) => Outcome::TooWide(limit, size),
        },
        Outcome::TooWide(limit, size) => match rest {
            Outcome::Number(_) => Outcome::Number(0),
            Outcome::Fits(_) => Outcome::TooWide(limit, size),
            Outcome::TooWide(_, _) => Outcome::TooWide(limit, size),
        },
    }
}
