//! Which parts of a tree are sought.
ghost use Rattle.std.specs.Prelude.{◌≡◌};
ghost use Rattle.chw_limits.specs.Sought.{tests_of};

use chw_base::limits::WRITTEN_VECTOR;
use chw_grammar::{read_literal, read_numeral};

/// Which parts are sought: those that pass one of the limits on parts.
#[derive(Clone, Copy)]
pub enum Sought {
    /// Written vectors of too many elements.
    LongVectors,
    /// Literals of too great a value.
    GreatValues,
    /// Numerals of types, and literals of a width, that are too great.
    GreatNumbers,
}

impl Sought {
    /// Whether a written vector of so many elements is sought.
    pub fn vector(self, elements: usize) -> bool
        ensures { result ≡ (tests_of self).vector elements }
    {
        match self {
            Sought::LongVectors => elements > WRITTEN_VECTOR as usize,
            Sought::GreatValues | Sought::GreatNumbers => false,
        }
    }

    /// Whether this literal is sought.
    pub fn literal(self, literal: &[u8]) -> bool
        ensures { result ≡ (tests_of self).literal literal.now }
    {
        match self {
            Sought::LongVectors => false,
            Sought::GreatValues => read_literal(literal).value.is_none(),
            Sought::GreatNumbers => read_literal(literal).width.is_none(),
        }
    }

    /// Whether this numeral of a type is sought.
    pub fn numeral(self, digits: &[u8]) -> bool
        ensures { result ≡ (tests_of self).numeral digits.now }
    {
        match self {
            Sought::LongVectors | Sought::GreatValues => false,
            Sought::GreatNumbers => read_numeral(digits).is_none(),
        }
    }
}
