//! Laws of types, each as the contract of a call that does nothing.
ghost use Rattle.chw_types.specs.TypePromises.{ShiftAfterPut, PutAfterShift, PutAfterPut, OneKind, ShiftKeepsKind, PutKeepsKind, PutClosedKeepsKind};
ghost use Rattle.chw_types.specs.TypePromises.{ShiftKeepsSize};
ghost use Rattle.chw_types.specs.Ceiling.{SumsCommute, SumsAssociate, ProductsCommute, ProductsAssociate, ProductsOverSums, ZeroIsNeutral, OneIsNeutral, ZeroAbsorbs};
ghost use Rattle.chw_types.specs.SamePromises.{SameReflexive, SameSymmetric, SameTransitive, SameValues};

/// Shifting after putting is putting after shifting, with the places moved.
pub fn shift_after_put()
    ensures { ShiftAfterPut }
{}

/// Anything may be put for a variable that doesn't occur.
pub fn put_after_shift()
    ensures { PutAfterShift }
{}

/// The order of two puttings, with the places moved.
pub fn put_after_put()
    ensures { PutAfterPut }
{}

/// A type has at most one kind.
pub fn one_kind()
    ensures { OneKind }
{}

/// A shift keeps the kind.
pub fn shift_keeps_kind()
    ensures { ShiftKeepsKind }
{}

/// A shift keeps the depth and the number of parts.
pub fn shift_keeps_size()
    ensures { ShiftKeepsSize }
{}

/// Putting a type of the variable's kind keeps the kind, where it is of degree at most 1, as a closed type is.
pub fn put_keeps_kind()
    ensures { PutKeepsKind }
{}

/// Putting a closed type of the variable's kind keeps the kind.
pub fn put_closed_keeps_kind()
    ensures { PutClosedKeepsKind }
{}

/// Sums that end at the greatest natural don't depend on the order.
pub fn sums_commute()
    ensures { SumsCommute }
{}

/// Nor on how they are grouped.
pub fn sums_associate()
    ensures { SumsAssociate }
{}

/// Products that end at the greatest natural don't depend on the order.
pub fn products_commute()
    ensures { ProductsCommute }
{}

/// Nor on how they are grouped.
pub fn products_associate()
    ensures { ProductsAssociate }
{}

/// A product with a sum is the sum of the products, where all end at the greatest natural.
pub fn products_over_sums()
    ensures { ProductsOverSums }
{}

/// Zero adds nothing, one changes no factor, and a product with zero is zero.
pub fn zero_and_one()
    ensures zero { ZeroIsNeutral }
    ensures one { OneIsNeutral }
    ensures absorbs { ZeroAbsorbs }
{}

/// A type is the same as itself.
pub fn same_as_itself()
    ensures { SameReflexive }
{}

/// Sameness goes both ways.
pub fn same_both_ways()
    ensures { SameSymmetric }
{}

/// What is the same as one is the same as what that is the same as.
pub fn same_in_a_chain()
    ensures { SameTransitive }
{}

/// Naturals of one polynomial have one value, whatever their variables stand for.
pub fn same_values()
    ensures { SameValues }
{}
