//! Laws of layouts, each as the contract of a call that does nothing.
ghost use Rattle.chw_layout.specs.EncodingPromises.{EncodedIsValue, ValueIsEncoded, EncodingHasWidth, OneEncoding, EncodingIsInjective, ZeroIsThere, OneValueWithoutBits};
ghost use Rattle.chw_layout.specs.Refusals.{OneMeasure, RepresentableIsMeasured, MeasuredIsRepresentable, TagSuffices, TagIsShortest};

use chw_bits::laws::{bits_made_of_their_number, length_of_made_bits, number_of_made_bits};

/// A type has at most one measure.
pub fn one_measure()
    ensures { OneMeasure }
{}

/// Exactly the representable types have a measure.
pub fn measured_types()
    ensures there { RepresentableIsMeasured }
    ensures back { MeasuredIsRepresentable }
{}

/// The tag is the shortest that tells the constructors apart.
pub fn tags()
    ensures suffices { TagSuffices }
    ensures shortest { TagIsShortest }
{}

/// What has an encoding is a value of the type, and each value of a type with a width has one encoding and no other.
pub fn encodings()
    ensures value { EncodedIsValue }
    ensures there { ValueIsEncoded }
    ensures one { OneEncoding }
{}

/// An encoding has the width of the type.
pub fn encoding_width()
    ensures { EncodingHasWidth }
{
    length_of_made_bits();
}

/// Two values of a type have two encodings. So decoding what was encoded gives the value again.
pub fn encoding_injective()
    ensures { EncodingIsInjective }
{
    length_of_made_bits();
    number_of_made_bits();
}

/// Each type with a width has a value whose encoding is all zero.
pub fn zero_value()
    ensures { ZeroIsThere }
{
    bits_made_of_their_number();
}

/// A type of width 0 has exactly one value.
pub fn one_value_without_bits()
    ensures { OneValueWithoutBits }
{
    length_of_made_bits();
    number_of_made_bits();
    bits_made_of_their_number();
}
