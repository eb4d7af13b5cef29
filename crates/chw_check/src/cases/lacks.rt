//! What a case leaves out.
use chw_base::{ConId, DefId};

/// What is looked for in the cases of a program.
#[derive(Clone, Copy)]
pub enum Sought {
    /// Constructors that no alternative is for.
    Constructors,
    /// The defaults of cases on scalars.
    Defaults,
}

/// What a case leaves out, where it has no default.
#[derive(Clone, Copy)]
pub enum Lacks {
    /// The first constructor, in order of declaration, that no alternative is for.
    Constructor(ConId),
    /// The default of a case on a scalar.
    Default,
}

/// A definition whose body has a case that leaves something out, and what the first such case leaves out.
#[derive(Clone, Copy)]
pub struct Incomplete {
    pub def: DefId,
    pub lacks: Lacks,
}
