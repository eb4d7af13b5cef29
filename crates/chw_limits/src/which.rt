//! What a limit is on.
ghost use Rattle.std.specs.Prelude.{◌≡◌};
ghost use Rattle.chw_limits.specs.Limits.{word_of};

/// What a limit is on.
#[derive(Clone, Copy, Debug, PartialEq, Eq)]
pub enum Which {
    /// How many definitions there are.
    Definitions,
    /// How many data types there are, the built-in ones left out.
    Data,
    /// How many clock domains there are.
    Domains,
    /// How many elements a written vector has.
    Vector,
    /// How great the value or the width of a literal or a numeral of a type is.
    Number,
}

/// A limit that is passed: what it is on, and its number, which is one of bits for numbers and else the most that may be.
#[derive(Clone, Copy, Debug, PartialEq, Eq)]
pub struct Limit {
    pub which: Which,
    pub number: u32,
}

impl Which {
    /// The word by which a refusal names it.
    pub fn word(&self) -> &'static str
        ensures { result.now ≡ word_of self.now }
    {
        match self {
            Which::Definitions => "definitions",
            Which::Data => "data",
            Which::Domains => "domains",
            Which::Vector => "vector",
            Which::Number => "number",
        }
    }
}
