//! Laws of the types of terms, each as the contract of a call that does nothing.
ghost use Rattle.chw_typing.specs.Laws.{OneType, TypedIsSound, TypesAreTermTypes, SameVariablesKeepType, SameTypesKeepPattern, OneBinding, RenameKeepsType, ShiftKeepsType, RenameTypesKeepsType, PutTypesKeepsType, PutClosedTypeKeepsType, PuttingAllKeepsType, PutKeepsType, EvaluatingKeepsType, PutTypeInKeepsType};

/// A term has at most one type, up to naturals.
pub fn one_type()
    ensures { OneType }
{}

/// A program that is tidy and typed is a sound setting, as the laws on kinds ask for.
pub fn typed_is_sound()
    ensures { TypedIsSound }
{}

/// The type of a term has a kind, and one that terms' types have.
pub fn types_are_term_types()
    ensures { TypesAreTermTypes }
{}

/// Where the variables' types are the same up to naturals, so is the term's.
pub fn same_variables_keep_types()
    ensures { SameVariablesKeepType }
{}

/// A pattern for a type is one for each type that is the same, and what it binds is determined up to naturals.
pub fn patterns_of_same_types()
    ensures kept { SameTypesKeepPattern }
    ensures one { OneBinding }
{}

/// Renaming variables keeps the type; so does a shift, which makes room for more variables.
pub fn renaming_keeps_types()
    ensures renaming { RenameKeepsType }
    ensures shift { ShiftKeepsType }
{}

/// Renaming type variables keeps what is typed, and so does putting types of the variables' kinds for them, where those are of degree at most
/// 1; so does putting a closed type.
pub fn putting_types_keeps_types()
    ensures renaming { RenameTypesKeepsType }
    ensures putting { PutTypesKeepsType }
    ensures closed { PutClosedTypeKeepsType }
{}

/// Putting terms that have the variables' types up to naturals keeps the type, up to naturals.
pub fn putting_terms_keeps_types()
    ensures putting_all { PuttingAllKeepsType }
    ensures putting { PutKeepsType }
{}

/// Evaluating the closed naturals of a term keeps the type, up to naturals; so does putting a closed type for a type lambda's variable as its
/// application does.
pub fn evaluating_keeps_types()
    ensures evaluating { EvaluatingKeepsType }
    ensures putting { PutTypeInKeepsType }
{}
