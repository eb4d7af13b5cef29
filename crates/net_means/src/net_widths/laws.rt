//! The laws, each as the contract of a call that does nothing.
ghost use Rattle.net_means.specs.NetWidths.Laws.{LimitsAreKept, ModulesAreFew, RunsBuildWellFormed, StatesBuildWellFormed, WidthsAreKept};

use crate::net_fits::laws::{built_is_well_formed, runs_begin_with_top};
use chw_types::laws::same_values;
use chw_typing::spine_laws::{saturated_spines, spines_are_saturated};
use layout_laws::laws::same_types_keep_layout;
use net_grounds::laws::facts;
use rule_types::laws::steps_keep;
use type_laws::laws::fields_keep_same;

/// Each module that is built keeps the rule on widths.
pub fn widths_are_kept()
    ensures { WidthsAreKept }
{
    facts();
    same_values();
    fields_keep_same();
    same_types_keep_layout();
    saturated_spines();
    spines_are_saturated();
    steps_keep();
}

/// There are at most as many modules as made definitions.
pub fn modules_are_few()
    ensures { ModulesAreFew }
{
    facts();
}

/// Each module that is built keeps the rule on limits.
pub fn limits_are_kept()
    ensures { LimitsAreKept }
{
    facts();
    same_values();
    fields_keep_same();
    same_types_keep_layout();
    saturated_spines();
    spines_are_saturated();
    steps_keep();
}

/// What is built is well formed: of a state that begins with the top, and so of one to which a run
/// leads.
pub fn runs_build_well_formed()
    ensures states { StatesBuildWellFormed }
    ensures runs { RunsBuildWellFormed }
{
    widths_are_kept();
    limits_are_kept();
    runs_begin_with_top();
    built_is_well_formed();
}
