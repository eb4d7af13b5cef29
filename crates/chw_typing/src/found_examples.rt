//! Worked examples of types that are found, each as the contract of a call that does nothing.
ghost use Rattle.chw_typing.specs.FoundExamples.{ZerosKept, ZerosLeftOut, NameOfAPattern};

/// Type applications: the type as put where it has a kind, and without zeros where it has none.
pub fn of_type_arguments()
    ensures kept { ZerosKept }
    ensures left_out { ZerosLeftOut }
{}

/// A pattern: a name has its field's type as put, where that has a kind.
pub fn of_patterns()
    ensures { NameOfAPattern }
{}
