//! Laws of the names and the types of a filter, each as the contract of a call that does nothing.
ghost use Rattle.make_typed.specs.MakeTyped.{AreTyped, AreWellNamed, HavePrograms};

/// No limit is passed, each name is declared once and is known where it stands, and no declaration
/// refers to itself.
pub fn made_names_are_known()
    ensures { AreWellNamed }
{}

/// There is a program of such a description, and it is tidy.
pub fn made_programs_are_there()
    ensures { HavePrograms }
{}

/// Whatever tidy program it has is typed.
pub fn made_programs_are_typed()
    ensures { AreTyped }
{}
