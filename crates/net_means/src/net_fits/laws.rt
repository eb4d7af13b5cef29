//! The laws, each as the contract of a call that does nothing.
ghost use Rattle.net_means.specs.NetFits.Laws.{ValueBodiesDriveInOrder, CircuitBodiesDriveInOrder, DriversAreKept, HasModules, NamesAreThere, TopsAreKept, BuiltIsWellFormed, PortsAreKept, RunsBeginWithTop, RunsBuildWellFormed};
ghost use Rattle.net_means.specs.NetFits.Laws.{ValueOutputsAreWide, WiresAreThere};
ghost use Rattle.net_means.specs.NetFits.WidthLaws.{WordSidesAgree, NamesAgree, LiteralsAgree, VectorsAgree, ElementsAgree, IndexedAgree};
ghost use Rattle.net_means.specs.NetFits.WidthLaws.{ConstructorsAgree};

use chw_types::laws::same_values;
use chw_typing::spine_laws::{saturated_spines, spines_are_saturated};
use layout_laws::laws::same_types_keep_layout;
use made_states::laws::origins_stay;
use net_grounds::laws::facts;
use rule_types::laws::steps_keep;
use type_laws::laws::fields_keep_same;

/// The cells of the body of a value drive its wires in order, from behind its inputs on.
pub fn value_bodies_drive_in_order()
    ensures { ValueBodiesDriveInOrder }
{
    facts();
    same_types_keep_layout();
}

/// The cells of the body of a circuit drive its wires in order, from behind its inputs on.
pub fn circuit_bodies_drive_in_order()
    ensures { CircuitBodiesDriveInOrder }
{
    facts();
    fields_keep_same();
    same_types_keep_layout();
    saturated_spines();
    spines_are_saturated();
}

/// Each module that is built keeps the rule on drivers.
pub fn drivers_are_kept()
    ensures { DriversAreKept }
{
    facts();
    fields_keep_same();
    same_types_keep_layout();
    saturated_spines();
    spines_are_saturated();
    steps_keep();
}

/// What is built has a module.
pub fn modules_are_there()
    ensures { HasModules }
{}

/// What the cells and the outputs of a module that is built name exists.
pub fn names_are_there()
    ensures { NamesAreThere }
{
    facts();
    fields_keep_same();
    same_types_keep_layout();
    saturated_spines();
    spines_are_saturated();
    steps_keep();
}

/// The outputs of a module of values are as wide as what the made definition gives, and each module
/// but the last has a wire.
pub fn outputs_are_wide()
    ensures values { ValueOutputsAreWide }
    ensures wires { WiresAreThere }
{
    facts();
    fields_keep_same();
    same_types_keep_layout();
    saturated_spines();
    spines_are_saturated();
    steps_keep();
}

/// The cells of a typed primitive on words agree in width, where its operands are as wide as their
/// types.
pub fn word_sides_agree()
    ensures { WordSidesAgree }
{
    facts();
    same_values();
    same_types_keep_layout();
}

/// So do those of a variable, of a literal and of a vector.
pub fn simple_sides_agree()
    ensures name { NamesAgree }
    ensures literal { LiteralsAgree }
    ensures vector { VectorsAgree }
{
    facts();
    same_values();
    same_types_keep_layout();
}

/// And so do those of an element of a vector.
pub fn element_sides_agree()
    ensures number { ElementsAgree }
    ensures index { IndexedAgree }
{
    facts();
    same_values();
    same_types_keep_layout();
}

/// And those of a constructor.
pub fn constructor_sides_agree()
    ensures { ConstructorsAgree }
{
    facts();
    same_types_keep_layout();
    saturated_spines();
    spines_are_saturated();
}

/// Each state of a run begins with the top.
pub fn runs_begin_with_top()
    ensures { RunsBeginWithTop }
{
    origins_stay();
}

/// The last module that is built keeps the rule on names, and has inputs as wide as the ports.
pub fn tops_are_kept()
    ensures { TopsAreKept }
{
    facts();
    fields_keep_same();
    same_types_keep_layout();
    saturated_spines();
    spines_are_saturated();
    steps_keep();
}

/// The ports of a typed state's program keep the rules on ports.
pub fn ports_are_kept()
    ensures { PortsAreKept }
{
    facts();
    steps_keep();
}

/// What is built is well formed, if it keeps the rules of which this isn't proved: of a state that
/// begins with the top, and so of one to which a run leads.
pub fn built_is_well_formed()
    ensures states { BuiltIsWellFormed }
    ensures runs { RunsBuildWellFormed }
{
    facts();
    fields_keep_same();
    runs_begin_with_top();
    same_types_keep_layout();
    saturated_spines();
    spines_are_saturated();
    steps_keep();
}
