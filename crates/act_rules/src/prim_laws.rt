//! Laws of the meaning of rules on primitives, each as the contract of a call that does nothing.
ghost use Rattle.act_rules.specs.PrimLaws.{ComputedActs, UnrolledActs, PrimitivesAct};

use crate::name_laws::elements_act;
use chw_typing::laws::typed_is_sound;

/// The value of a primitive on literals acts as the primitive on them.
pub fn delta_acts()
    ensures { ComputedActs }
{
    typed_is_sound();
}

/// The unrolled form of a primitive on vectors acts as the primitive.
pub fn unrolled_acts()
    ensures { UnrolledActs }
{
    typed_is_sound();
}

/// What UNROLL, ELEM and DELTA make of a term acts as the term.
pub fn primitives_act()
    ensures { PrimitivesAct }
{
    unrolled_acts();
    elements_act();
    delta_acts();
}
