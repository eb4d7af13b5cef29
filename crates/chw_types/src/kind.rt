//! Kinds, and the three sorts of scalars.
ghost use Rattle.std.specs.Bool.{Decides};
ghost use Rattle.chw_types.specs.Kinds.{IsOfTerms};

/// What a type is for: a natural, a clock domain, values that can be bits, or circuits.
#[derive(Clone, Copy, Debug, PartialEq, Eq, Hash)]
pub enum Kind {
    Nat,
    Dom,
    Val,
    Cir,
}

impl Kind {
    /// Whether terms have types of this kind.
    pub fn is_of_terms(self) -> bool
        ensures { Decides result (IsOfTerms self) }
    {
        matches!(self, Kind::Val | Kind::Cir)
    }
}

/// How the bits of a scalar are read: as an unsigned number, as a signed number, or as bits alone.
#[derive(Clone, Copy, Debug, PartialEq, Eq, Hash)]
pub enum Scalar {
    U,
    S,
    B,
}
