//! The laws, each as the contract of a call that does nothing.
ghost use Rattle.ended_laws.specs.Values.{SidesStand, BlocksStand};
ghost use Rattle.ended_laws.specs.Circuits.{CircuitSidesStand, CircuitBodiesStand};
ghost use Rattle.ended_laws.specs.Laws.{NoneIsStuck, EndedIsNormal};

use chw_layout::laws::{measured_types, one_measure};
use layout_laws::laws::{numbers_of_constructors, same_types_keep_layout};
use normal_laws::laws::normal_is_not_blocked;
use rest_places::laws::nothing_unrolls;
use rewriting::scene_laws::names_of_modes;
use rule_types::laws::steps_keep;
use type_laws::laws::fields_keep_same;

/// Where values are built, a term of a representable type at rest is a right side or a letrec, and
/// at a result place a block.
pub fn values_stand()
    ensures side { SidesStand }
    ensures block { BlocksStand }
{
    names_of_modes();
    nothing_unrolls();
}

/// Where circuits are built, a term at rest of which the type is a port is a right side or a
/// letrec, and at a result place a body.
pub fn circuits_stand()
    ensures side { CircuitSidesStand }
    ensures body { CircuitBodiesStand }
{
    names_of_modes();
    nothing_unrolls();
    measured_types();
    same_types_keep_layout();
    numbers_of_constructors();
}

/// In a typed state in which no rule has an instance, a body that nothing blocks is in normal form.
/// So the state is normal exactly where nothing of it is blocked.
pub fn none_is_stuck()
    ensures body { NoneIsStuck }
    ensures state { EndedIsNormal }
{
    circuits_stand();
    fields_keep_same();
    measured_types();
    names_of_modes();
    normal_is_not_blocked();
    one_measure();
    same_types_keep_layout();
    steps_keep();
    values_stand();
}
