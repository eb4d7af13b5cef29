//! Laws of the types that are found, each as the contract of a call that does nothing.
ghost use Rattle.chw_typing.specs.FoundLaws.{OneFound, FoundIsType, TypedIsFound, ClosedSettles};

/// At most one type is found for a term.
pub fn one_found()
    ensures { OneFound }
{}

/// What is found for a term is a type of it.
pub fn found_is_type()
    ensures { FoundIsType }
{}

/// For a term that has a type one is found, and it is the same up to naturals.
pub fn typed_is_found()
    ensures { TypedIsFound }
{}

/// A type of one variable into which a closed type of its kind is put stays as it is.
pub fn closed_settles()
    ensures { ClosedSettles }
{}
