//! The laws, each as the contract of a call that does nothing.
ghost use Rattle.net_there.specs.Laws.{ConstantsHaveBits, ContentsHaveWords};
ghost use Rattle.net_there.specs.Laws.{ModulesAreReady, PortsAreThere, StatesAreReady};
ghost use Rattle.net_there.specs.Laws.{FinishedStatesHaveNets, RunsHaveNets};

use chw_layout::laws::encodings;
use chw_types::laws::same_values;
use chw_typing::named_laws::kinds_of_named_types;
use layout_laws::laws::same_types_keep_layout;
use made_states::laws::states_stay_typed;
use net_grounds::laws::facts;
use net_means::net_fits::laws::runs_begin_with_top;
use net_means::net_widths::laws::runs_build_well_formed;
use net_ready::laws::ready_states_have_nets;
use rule_types::laws::steps_keep;
use type_laws::laws::fields_keep_same;

/// A typed constant of a type with a width has bits, and a content words.
pub fn constants_have_bits()
    ensures bits { ConstantsHaveBits }
    ensures words { ContentsHaveWords }
{
    encodings();
    facts();
    fields_keep_same();
    same_values();
}

/// Each made definition of a typed normal state is ready to be built.
pub fn modules_are_ready()
    ensures { ModulesAreReady }
{
    encodings();
    facts();
    fields_keep_same();
    kinds_of_named_types();
    same_types_keep_layout();
    same_values();
    steps_keep();
}

/// The program of a typed normal state that begins with the top has ports.
pub fn ports_are_there()
    ensures { PortsAreThere }
{
    facts();
    fields_keep_same();
    same_types_keep_layout();
    steps_keep();
}

/// An entry in normal form, of which no made definition uses itself, is ready to be built.
pub fn states_are_ready()
    ensures { StatesAreReady }
{
    modules_are_ready();
    ports_are_there();
}

/// There is a well formed net of it, and so of each such state to which a run leads.
pub fn finished_states_have_nets()
    ensures states { FinishedStatesHaveNets }
    ensures runs { RunsHaveNets }
{
    ready_states_have_nets();
    runs_begin_with_top();
    runs_build_well_formed();
    states_are_ready();
    states_stay_typed();
}
