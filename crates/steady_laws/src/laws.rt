//! Laws of what is the same at every history, each as the contract of a call that does nothing.
ghost use Rattle.steady_laws.specs.Laws.{ValuesStay, ValuesGiveTheSame, ValueTermsAreSteady, SteadyTermsStay, SteadyThunksStay, SteadyThunksYield};

use chw_typing::laws::{typed_is_sound, types_are_term_types};

/// In a program that is tidy and typed, a closed term of a type of values has the same value at every history, in as many turns; and on data
/// values it gives the same.
pub fn values_stay()
    ensures value { ValuesStay }
    ensures given { ValuesGiveTheSame }
{
    typed_is_sound();
    types_are_term_types();
}

/// A term of a type of values is steady: it has no primitive that looks at the history, and no definition of a circuit.
pub fn value_terms_are_steady()
    ensures { ValueTermsAreSteady }
{
    typed_is_sound();
    types_are_term_types();
}

/// A steady term has the same value at every history where its variables have steady thunks, and so has a steady thunk; the value
/// is steady, and so is all that the thunk yields the same.
pub fn what_is_steady_stays()
    ensures terms { SteadyTermsStay }
    ensures thunks { SteadyThunksStay }
    ensures yields { SteadyThunksYield }
{
    typed_is_sound();
    types_are_term_types();
}
