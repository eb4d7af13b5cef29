//! Laws of whole spines at places, each as the contract of a call that does nothing.
ghost use Rattle.chw_typing.specs.PartLaws.{SpineIsPart, SpineBehind, ArgumentIsSpine, ChildIsSpine};

/// A whole spine at a place is the part there.
pub fn spines_are_parts()
    ensures { SpineIsPart }
{}

/// A whole spine behind a part is one of the part.
pub fn spines_of_parts()
    ensures { SpineBehind }
{}

/// An argument is a whole spine, and so is a child of a head.
pub fn spines_below_spines()
    ensures arguments { ArgumentIsSpine }
    ensures children { ChildIsSpine }
{}
