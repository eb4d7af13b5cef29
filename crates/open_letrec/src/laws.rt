//! The laws, each as the contract of a call that does nothing.
ghost use Rattle.open_letrec.specs.Laws.{SettledIsSame, SideIsLast, SideIsPart, JoinedIsFlat, TypesStay};

/// A letrec stays where a binding of it is settled.
pub fn settled_is_same()
    ensures { SettledIsSame }
{}

/// The last one of the right sides that are put stays.
pub fn side_is_last()
    ensures { SideIsLast }
{}

/// The current right side is a part of the letrec.
pub fn side_is_part()
    ensures { SideIsPart }
{}

/// Joining does what the rule that joins letrecs makes.
pub fn joined_is_flat()
    ensures { JoinedIsFlat }
{}

/// No call changes the type of a binding.
pub fn types_stay()
    ensures { TypesStay }
{}
