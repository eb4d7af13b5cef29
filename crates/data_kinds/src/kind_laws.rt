//! Laws of the kinds of data types, each as the contract of a call that does nothing.
ghost use Rattle.data_kinds.specs.Laws.{OneWay, OneProgram};

/// There is one way to give data types without a cycle their kinds: two lists of data types that differ in nothing but kinds, and in each of
/// which each data type has the kind that its fields give it, are the same.
pub fn one_way()
    ensures { OneWay }
{}

/// Tidy programs that differ in nothing but the kinds of their data types are the same.
pub fn one_program()
    ensures { OneProgram }
{}
