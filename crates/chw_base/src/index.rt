//! The indices: a newtype over `u32` for each sort of thing that is numbered, so that no number of one sort stands for one of another.
ghost use Rattle.std.specs.Prelude.{◌≡◌, ℕ, refl};

/// What a number names.
pub trait Index {
    ghost number_of: { Self → ℕ };

    ghost index_of: { ℕ → Self };

    /// The index of this number.
    fn of(n: u32) -> Self
        ensures { result ≡ index_of n };

    /// The number of this index.
    fn number(&self) -> u32
        ensures { result ≡ number_of self.now };

    ghost number_of_index_of: { (n : ℕ) → number_of (index_of n) ≡ n };
}

/// The law of the indices, for proofs: an index has the number that it was made of.
pub fn law_of_index<I: Index>()
    ensures { (n : ℕ) → I.number_of (I.index_of n) ≡ n }
{}

/// A variable of a term, counted from the innermost binder, 0.
#[derive(Clone, Copy, Debug, PartialEq, Eq, PartialOrd, Ord, Hash)]
pub struct VarIx {
    pub number: u32,
}

impl Index for VarIx {
    ghost number_of = { λ i. i.number };

    ghost index_of = { λ n. record { number = n } };

    ghost number_of_index_of = { λ n. refl };

    fn of(number: u32) -> Self {
        VarIx { number }
    }

    fn number(&self) -> u32 {
        self.number
    }
}

/// A type variable, counted from the innermost type binder, 0.
#[derive(Clone, Copy, Debug, PartialEq, Eq, PartialOrd, Ord, Hash)]
pub struct TyIx {
    pub number: u32,
}

impl Index for TyIx {
    ghost number_of = { λ i. i.number };

    ghost index_of = { λ n. record { number = n } };

    ghost number_of_index_of = { λ n. refl };

    fn of(number: u32) -> Self {
        TyIx { number }
    }

    fn number(&self) -> u32 {
        self.number
    }
}

/// A definition of the program, in order of declaration.
#[derive(Clone, Copy, Debug, PartialEq, Eq, PartialOrd, Ord, Hash)]
pub struct DefId {
    pub number: u32,
}

impl Index for DefId {
    ghost number_of = { λ i. i.number };

    ghost index_of = { λ n. record { number = n } };

    ghost number_of_index_of = { λ n. refl };

    fn of(number: u32) -> Self {
        DefId { number }
    }

    fn number(&self) -> u32 {
        self.number
    }
}

/// A made definition, in the order in which they were made.
#[derive(Clone, Copy, Debug, PartialEq, Eq, PartialOrd, Ord, Hash)]
pub struct MadeId {
    pub number: u32,
}

impl Index for MadeId {
    ghost number_of = { λ i. i.number };

    ghost index_of = { λ n. record { number = n } };

    ghost number_of_index_of = { λ n. refl };

    fn of(number: u32) -> Self {
        MadeId { number }
    }

    fn number(&self) -> u32 {
        self.number
    }
}

/// A data type of the program, in order of declaration, the built-in ones first.
#[derive(Clone, Copy, Debug, PartialEq, Eq, PartialOrd, Ord, Hash)]
pub struct DataId {
    pub number: u32,
}

impl Index for DataId {
    ghost number_of = { λ i. i.number };

    ghost index_of = { λ n. record { number = n } };

    ghost number_of_index_of = { λ n. refl };

    fn of(number: u32) -> Self {
        DataId { number }
    }

    fn number(&self) -> u32 {
        self.number
    }
}

/// A constructor of the program, in order of declaration over all data types, the built-in ones first.
#[derive(Clone, Copy, Debug, PartialEq, Eq, PartialOrd, Ord, Hash)]
pub struct ConId {
    pub number: u32,
}

impl Index for ConId {
    ghost number_of = { λ i. i.number };

    ghost index_of = { λ n. record { number = n } };

    ghost number_of_index_of = { λ n. refl };

    fn of(number: u32) -> Self {
        ConId { number }
    }

    fn number(&self) -> u32 {
        self.number
    }
}

/// A clock domain, in order of declaration.
#[derive(Clone, Copy, Debug, PartialEq, Eq, PartialOrd, Ord, Hash)]
pub struct DomId {
    pub number: u32,
}

impl Index for DomId {
    ghost number_of = { λ i. i.number };

    ghost index_of = { λ n. record { number = n } };

    ghost number_of_index_of = { λ n. refl };

    fn of(number: u32) -> Self {
        DomId { number }
    }

    fn number(&self) -> u32 {
        self.number
    }
}

/// A wire of a module of a net, in order.
#[derive(Clone, Copy, Debug, PartialEq, Eq, PartialOrd, Ord, Hash)]
pub struct WireId {
    pub number: u32,
}

impl Index for WireId {
    ghost number_of = { λ i. i.number };

    ghost index_of = { λ n. record { number = n } };

    ghost number_of_index_of = { λ n. refl };

    fn of(number: u32) -> Self {
        WireId { number }
    }

    fn number(&self) -> u32 {
        self.number
    }
}

/// A module of a net, in order.
#[derive(Clone, Copy, Debug, PartialEq, Eq, PartialOrd, Ord, Hash)]
pub struct ModId {
    pub number: u32,
}

impl Index for ModId {
    ghost number_of = { λ i. i.number };

    ghost index_of = { λ n. record { number = n } };

    ghost number_of_index_of = { λ n. refl };

    fn of(number: u32) -> Self {
        ModId { number }
    }

    fn number(&self) -> u32 {
        self.number
    }
}
