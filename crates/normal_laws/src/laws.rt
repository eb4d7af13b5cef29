//! The laws, each as the contract of a call that does nothing.
ghost use Rattle.normal_laws.specs.Laws.{NormalHasNoRecursion, NormalHasNoPayload, NormalDeclaresNoLimit, NormalBuildsNoLimit, NormalIsNotBlocked};

use chw_layout::laws::{measured_types, one_measure};
use chw_typing::spine_laws::{saturated_spines, spines_are_saturated};
use layout_laws::laws::{same_naturals_mean_one_number, same_types_keep_layout};
use rewriting::scene_laws::names_of_modes;
use rule_types::laws::steps_keep;
use type_laws::laws::fields_keep_same;

/// No cycle of bindings blocks a body in normal form.
pub fn normal_has_no_recursion()
    ensures { NormalHasNoRecursion }
{}

/// No payload blocks a body in normal form.
pub fn normal_has_no_payload()
    ensures { NormalHasNoPayload }
{
    fields_keep_same();
    names_of_modes();
    saturated_spines();
    steps_keep();
}

/// Where a limit blocks a body in normal form, it is passed by the type of what stands at an active place, or by a size of a primitive that takes an element of
/// a vector: no leading lambda and no binding passes one.
pub fn normal_declares_no_limit()
    ensures { NormalDeclaresNoLimit }
{
    one_measure();
    steps_keep();
}

/// Where values and circuits are built, what stands in a body in normal form passes no limit by its type: right sides, blocks and alternatives.
pub fn normal_builds_no_limit()
    ensures { NormalBuildsNoLimit }
{
    fields_keep_same();
    one_measure();
    same_types_keep_layout();
    steps_keep();
}

/// Nothing blocks a body in normal form.
pub fn normal_is_not_blocked()
    ensures { NormalIsNotBlocked }
{
    fields_keep_same();
    measured_types();
    names_of_modes();
    one_measure();
    same_naturals_mean_one_number();
    same_types_keep_layout();
    saturated_spines();
    spines_are_saturated();
    steps_keep();
}
