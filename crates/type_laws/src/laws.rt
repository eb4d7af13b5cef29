//! Laws of types, each as the contract of a call that does nothing.
ghost use Rattle.type_laws.specs.KindsKept.{NatIsNatural, KindedFits, PuttingAllKeepsKindExactly, PutKeepsKindExactly, PutHasNoOtherKind, ArgumentsKeepKindExactly};
ghost use Rattle.type_laws.specs.SameForms.{SameInEachForm};
ghost use Rattle.type_laws.specs.SameKept.{SameKinds, SameAsDomain, SameAsScalar, SameAsVector, SameAsData, SameAsFunction, SameAsSignal, SameAsBound, SameAsNatural, PuttingAllKeepsSame, PutKeepsSame, PutKeepsSameOfKinds, ShiftKeepsSame, ArgumentsKeepSame, FieldsKeepSame};
ghost use Rattle.type_laws.specs.StepByStep.{SumsStepByStep, ProductsStepByStep};

/// Types that are the same and have kinds have one kind.
pub fn same_kinds()
    ensures { SameKinds }
{}

/// Types of one form, with parts that are the same, are the same.
pub fn same_in_each_form()
    ensures { SameInEachForm }
{}

/// What is the same as a type that is no natural has its form, and the same parts.
pub fn same_parts()
    ensures domain { SameAsDomain }
    ensures scalar { SameAsScalar }
    ensures vector { SameAsVector }
    ensures of_data { SameAsData }
    ensures function { SameAsFunction }
    ensures signal { SameAsSignal }
    ensures bound { SameAsBound }
{}

/// What is the same as a natural is one, of its polynomial.
pub fn same_as_natural()
    ensures { SameAsNatural }
{}

/// A polynomial may be computed step by step, with coefficients that end at each step.
pub fn polynomials_step_by_step()
    ensures sums { SumsStepByStep }
    ensures products { ProductsStepByStep }
{}

/// Putting the same for each variable into the same gives the same, if it is a natural for each variable in a sum or product.
pub fn putting_all_keeps_same()
    ensures { PuttingAllKeepsSame }
{}

/// Putting the same into the same gives the same, if what is put is a natural wherever it comes into a sum or product.
pub fn put_keeps_same()
    ensures { PutKeepsSame }
{}

/// Putting the same into the same gives the same, where all have kinds.
pub fn put_keeps_same_of_kinds()
    ensures { PutKeepsSameOfKinds }
{}

/// A shift keeps types the same, and keeps others apart.
pub fn shift_keeps_same()
    ensures { ShiftKeepsSame }
{}

/// Putting the same arguments at once into the same gives the same, if they are naturals wherever they come into a sum or product.
pub fn arguments_keep_same()
    ensures { ArgumentsKeepSame }
{}

/// The fields of a data type at the same arguments are the same.
pub fn fields_keep_same()
    ensures { FieldsKeepSame }
{}

/// Over data types of kinds of terms, what has the kind of naturals is a natural.
pub fn nat_is_natural()
    ensures { NatIsNatural }
{}

/// What has a kind has no natural of too great a degree.
pub fn kinded_fits()
    ensures { KindedFits }
{}

/// Putting types of the variables' kinds keeps the kind, exactly where no natural comes to have too great a degree.
pub fn putting_all_keeps_kind_exactly()
    ensures { PuttingAllKeepsKindExactly }
{}

/// Putting a type of the variable's kind keeps the kind, exactly where no natural comes to have too great a degree.
pub fn put_keeps_kind_exactly()
    ensures { PutKeepsKindExactly }
{}

/// A type into which a type of the variable's kind was put has no other kind than before.
pub fn put_has_no_other_kind()
    ensures { PutHasNoOtherKind }
{}

/// The fields of a data type keep their kinds at arguments of the parameters' kinds, exactly where no natural comes to have too great a
/// degree.
pub fn arguments_keep_kind_exactly()
    ensures { ArgumentsKeepKindExactly }
{}
