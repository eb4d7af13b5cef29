//! The names of the rules of rewriting.

/// A rule of rewriting. The rules stand in their order: of several at one place the least goes first.
#[derive(Clone, Copy, Debug, PartialEq, Eq, PartialOrd, Ord, Hash)]
pub enum Rule {
    /// A type lambda that is applied gets its type.
    TyBeta,
    /// A lambda that is applied becomes a let.
    Beta,
    /// An argument moves into a let.
    AppLet,
    /// An argument moves into a case.
    AppCase,
    /// A case on a constructor or a literal becomes the alternative.
    CaseCon,
    /// A let moves out of a scrutinee.
    CaseLet,
    /// A case moves out of a scrutinee.
    CaseCase,
    /// The parts of a port become projections.
    Proj,
    /// A let moves out of a demanded argument.
    PrimLet,
    /// A case moves out of a demanded argument.
    PrimCase,
    /// A let in a let joins it.
    Flat,
    /// Bindings that aren't reached go.
    Dead,
    /// A binding whose type has no wires is put for its name.
    Inline,
    /// A definition takes the place of its name.
    Unfold,
    /// A vector primitive becomes its elements.
    Unroll,
    /// An element of a written vector.
    Elem,
    /// A primitive on literals becomes its value.
    Delta,
    /// Lifted functions are joined.
    ApPure,
    /// A lifted function gets all its parameters.
    Eta,
    /// A call becomes a made definition.
    Spec,
    /// An operand gets a name.
    Anf,
}
