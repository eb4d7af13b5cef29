//! The laws, each as the contract of a call that does nothing.
ghost use Rattle.chw_typing.specs.ContextLaws.{AroundIsPart, PartHasPlace, AroundBehind, PartIsTyped, PlugKeepsType, PartIsComplete, PlugKeepsComplete};

/// A place is the part at its path, and each part of a typed term is at one. A place of a part is one of the whole.
pub fn places()
    ensures part { AroundIsPart }
    ensures found { PartHasPlace }
    ensures behind { AroundBehind }
{}

/// What is at a place of a typed term has a type.
pub fn parts_are_typed()
    ensures { PartIsTyped }
{}

/// A term keeps its type, up to naturals, where what has the types of a part takes its place.
pub fn plug_keeps_type()
    ensures { PlugKeepsType }
{}

/// A term stays complete where what is complete takes the place of a part; and the part is complete.
pub fn plug_keeps_complete()
    ensures part { PartIsComplete }
    ensures kept { PlugKeepsComplete }
{}
