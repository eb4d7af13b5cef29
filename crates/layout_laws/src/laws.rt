//! Laws of layouts, each as the contract of a call that does nothing.
ghost use Rattle.layout_laws.specs.Numbering.{ConstructorsByPlace, OneNumbering};
ghost use Rattle.layout_laws.specs.SameLayout.{SameNumber, SameKeepsMeasure, SameKeepsValues, SameKeepsEncodings, SameKeepsZeros};
ghost use Rattle.layout_laws.specs.ZeroThere.{ZeroExists, ZeroWithoutWidth};
ghost use Rattle.layout_laws.specs.LeavesAgree.{LeavesAgree, LeavesAreThere, PortTakesStreams, StreamsGivePort};

use chw_layout::laws::measured_types;
use chw_types::laws::same_values;
use type_laws::laws::fields_keep_same;

/// A constructor has the number that comes as far behind the first constructor of its data type as its place is there; and the numbers by which
/// values name constructors are those by which terms do.
pub fn numbers_of_constructors()
    ensures places { ConstructorsByPlace }
    ensures one { OneNumbering }
{}

/// Types that are the same up to naturals mean one number.
pub fn same_naturals_mean_one_number()
    ensures { SameNumber }
{
    same_values();
}

/// What is the same up to naturals as a closed type has its measure, its values, each with the same bits, and its zero.
pub fn same_types_keep_layout()
    ensures measure { SameKeepsMeasure }
    ensures values { SameKeepsValues }
    ensures encodings { SameKeepsEncodings }
    ensures zeros { SameKeepsZeros }
{
    same_values();
    fields_keep_same();
}

/// Where each data type has a constructor, each type with a width has a zero; so has each representable type, even one that passes a limit.
pub fn zero_exists()
    ensures of_width { ZeroExists }
    ensures representable { ZeroWithoutWidth }
{
    measured_types();
}

/// The leaves of a port are those of each thunk of its type, and those of the streams that it is made of as an input.
pub fn leaves_agree()
    ensures agree { LeavesAgree }
    ensures there { LeavesAreThere }
    ensures streams { PortTakesStreams }
    ensures given { StreamsGivePort }
{}
