//! Laws of what carries bits, each as the contract of a call that does nothing.
ghost use Rattle.carrying.specs.DataLaws.{ShownHasTag, TagTells, ConstructorCarries, FieldShows, FieldsCarry, GoesOnShows, TakesShows, LooksShows, CaseCarries};
ghost use Rattle.carrying.specs.EncodingLaws.{EncodingHasParts};
ghost use Rattle.carrying.specs.EnvironmentLaws.{GroupVariables, OutsideGroup, ParameterVariables, OutsideFunction, BoundVariables, OutsideAlternative, FieldVariables, OutsideFields};
ghost use Rattle.carrying.specs.SameLaws.{SameHolds, SameShows};
ghost use Rattle.carrying.specs.SignalLaws.{PureShows, MapShows, ApShows, RegisterShowsFirst, RegisterShowsLater, CrossingShows};
ghost use Rattle.carrying.specs.TermLaws.{LiteralCarries, VariableShows, GlobalShows, LetShows, MemberShows, SampleCarries, AppliedShows, FunctionShows, CallShows, DataCarry, StreamShows};
ghost use Rattle.carrying.specs.VectorLaws.{VectorCarries, ElementShows, VGetShows, VAtShows};
ghost use Rattle.carrying.specs.WordLaws.{PrimitiveShows, TestShows};
ghost use Rattle.carrying.specs.YieldLaws.{ShownHasWidth, ShownIsYielded, CarriedIsYielded, HeldIsYielded, OneShown};

use chw_bits::laws::number_of_made_bits;
use chw_types::laws::same_values;
use layout_laws::laws::{same_naturals_mean_one_number, zero_exists};
use type_laws::laws::fields_keep_same;

/// What shows bits shows as many as its type is wide.
pub fn width_of_what_is_shown()
    ensures { ShownHasWidth }
{}

/// What shows bits makes the data value that they encode, and what carries them makes one at every history.
pub fn what_is_shown_is_yielded()
    ensures shown { ShownIsYielded }
    ensures carried { CarriedIsYielded }
    ensures held { HeldIsYielded }
{
    number_of_made_bits();
    zero_exists();
}

/// A thunk shows the same bits each time at one history.
pub fn one_shown()
    ensures { OneShown }
{
    number_of_made_bits();
    zero_exists();
}

/// What is held and shown at a closed type is so at each that is the same up to naturals.
pub fn same_types_show()
    ensures held { SameHolds }
    ensures shown { SameShows }
{
    same_values();
    fields_keep_same();
}

/// The variables of an environment have these thunks: inside a group its members, inside a function what it is on, and inside an
/// alternative what its pattern binds, of each the last one first; then come those outside.
pub fn variables_of_environments()
    ensures members { GroupVariables }
    ensures outside_group { OutsideGroup }
    ensures parameters { ParameterVariables }
    ensures outside_function { OutsideFunction }
    ensures bound { BoundVariables }
    ensures outside_alternative { OutsideAlternative }
    ensures fields { FieldVariables }
    ensures outside_fields { OutsideFields }
{}

/// A literal carries its bits; a variable, a definition, a group and a member of one show what they go on with.
pub fn simple_terms_show()
    ensures literal { LiteralCarries }
    ensures variable { VariableShows }
    ensures global { GlobalShows }
    ensures group { LetShows }
    ensures member { MemberShows }
{}

/// A sample carries what its thunk shows at its history, a data value its encoding, and a stream shows that of its present data value.
pub fn given_thunks_show()
    ensures sample { SampleCarries }
    ensures data_value { DataCarry }
    ensures stream { StreamShows }
{}

/// A function on thunks or terms shows what its body shows with these as its variables.
pub fn functions_show()
    ensures applied { AppliedShows }
    ensures several { FunctionShows }
    ensures call { CallShows }
{}

/// A primitive on words shows its value on the words of its operands.
pub fn primitives_show()
    ensures words { PrimitiveShows }
    ensures tests { TestShows }
{
    same_naturals_mean_one_number();
}

/// A vector carries the bits of its elements, and an element shows those at its place, also by `vget` and `vat`.
pub fn vectors_carry()
    ensures vector { VectorCarries }
    ensures element { ElementShows }
    ensures vget { VGetShows }
    ensures vat { VAtShows }
{
    same_naturals_mean_one_number();
}

/// A constructor carries its tag and the bits of its operands.
pub fn constructors_carry()
    ensures { ConstructorCarries }
{}

/// An encoding of data begins with its constructor's tag, and behind it lie the encodings of the fields.
pub fn encodings_have_parts()
    ensures { EncodingHasParts }
{}

/// What shows the bits of data begins with a constructor's tag, and the tag tells the constructor.
pub fn tags_show()
    ensures there { ShownHasTag }
    ensures tells { TagTells }
{
    number_of_made_bits();
}

/// A field of what shows the bits of data shows those at its place.
pub fn fields_show()
    ensures one { FieldShows }
    ensures all { FieldsCarry }
{
    number_of_made_bits();
}

/// A case shows what the alternative for its scrutinee's bits shows.
pub fn cases_show()
    ensures goes_on { GoesOnShows }
    ensures takes { TakesShows }
    ensures looks { LooksShows }
    ensures every { CaseCarries }
{
    number_of_made_bits();
    same_naturals_mean_one_number();
}

/// A signal that is made of others shows what they show: a constant its value, `fmap` and `ap` the function on the sample, a register its
/// first value and then its signal at the last tick, a signal from another domain what it is there.
pub fn signals_show()
    ensures constant { PureShows }
    ensures map { MapShows }
    ensures ap { ApShows }
    ensures first { RegisterShowsFirst }
    ensures later { RegisterShowsLater }
    ensures crossing { CrossingShows }
{}
