//! What rules are asked about: made definitions, and the place of a term.
use crate::gaps::GapBuffer;
use crate::program::Program;
use crate::term::Term;
use chw_types::Ty;

/// What a definition gives: a value, or a circuit.
#[derive(Clone, Copy, Debug, PartialEq, Eq, Hash)]
pub enum Sort {
    Value,
    Circuit,
}

/// A definition that was made in normalising: what it was made of, what has become of that, its type and its sort.
#[derive(Drop)]
pub struct Made {
    pub origin: Term,
    pub body: Term,
    pub ty: Ty,
    pub sort: Sort,
}

/// What a place is for.
#[derive(Clone, Copy, Debug, PartialEq, Eq, Hash)]
pub enum Mode {
    /// A value: representable types are named.
    V,
    /// A circuit: ports are named.
    C,
    /// The head of a value: a demanded part that has no name.
    HV,
    /// The head of a circuit.
    HC,
    /// A constant: nothing is named.
    K,
}

/// Where a term stands.
#[derive(Drop)]
pub struct Place {
    pub mode: Mode,
    /// Whether what the term gives is what its body gives.
    pub result: bool,
    /// The types of the variables in scope, the outermost first.
    pub vars: GapBuffer<Ty>,
}

/// The definitions that a term may name.
pub struct Scene<'a> {
    pub program: &'a Program,
    pub made: &'a [Made],
}
