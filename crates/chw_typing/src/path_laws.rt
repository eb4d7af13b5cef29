//! The laws, each as the contract of a call that does nothing.
ghost use Rattle.chw_typing.specs.PathLaws.{ChildOfWithChild, WithSameChild, WithChildTwice, ChildApart, PartOfWithPart, WithSamePart, WithPartTwice, PartBehind, WithPartBehind, PartsApart, NeverEarlier, EarlierThrough, OneIsEarlier, SpineArgument, WithSpineArgument};

/// A child in another's place: it is found there, and the other children stay.
pub fn children()
    ensures found { ChildOfWithChild }
    ensures same { WithSameChild }
    ensures twice { WithChildTwice }
    ensures apart { ChildApart }
{}

/// A part in another's place: it is found there, and one part put after another stays.
pub fn parts()
    ensures found { PartOfWithPart }
    ensures same { WithSamePart }
    ensures twice { WithPartTwice }
{}

/// A path behind a path leads to a part of the part.
pub fn parts_of_parts()
    ensures found { PartBehind }
    ensures changed { WithPartBehind }
{}

/// Parts at paths apart don't change each other.
pub fn parts_apart()
    ensures { PartsApart }
{}

/// Places are in one order.
pub fn order_of_places()
    ensures irreflexive { NeverEarlier }
    ensures transitive { EarlierThrough }
    ensures total { OneIsEarlier }
{}

/// The arguments of an application stand at their paths.
pub fn arguments()
    ensures found { SpineArgument }
    ensures changed { WithSpineArgument }
{}
