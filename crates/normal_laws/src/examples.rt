//! Worked examples, as the contract of a call that does nothing.
ghost use Rattle.normal_laws.specs.Examples.{LargerIsBlocked, LargerIsNotNormal, MemoryIsNormal};

use chw_layout::laws::one_measure;

/// A body whose block RAM has a content of 4,096 bits is in normal form. With one word more it isn't, and it is blocked at the content.
pub fn of_contents()
    ensures normal { MemoryIsNormal }
    ensures larger { LargerIsNotNormal }
    ensures blocked { LargerIsBlocked }
{
    one_measure();
}
