//! Laws of the outputs of built nets, each as the contract of a call that does nothing.
ghost use Rattle.net_means.specs.Laws.{InputsAreGiven, BuiltNetsMean, OutputsHaveOneMeaning};

use crate::net_bits::laws::all_have_bits;
use crate::net_fits::laws::runs_begin_with_top;
use act_runs::laws::run_gives;
use carrying::laws::what_is_shown_is_yielded;
use chw_layout::laws::encoding_width;
use chw_meaning::laws::at_most_one_meaning;
use chw_types::laws::same_values;
use net_grounds::laws::facts;
use netlist::laws::a_wire_has_one_value;
use normal_forms::laws::one_whole;
use rule_types::laws::steps_keep;
use type_laws::laws::fields_keep_same;
use use_laws::laws::bits_through_uses;

/// At each history of a program the inputs of a built net's top have the bits of what the program's streams are.
pub fn inputs_are_given()
    ensures { InputsAreGiven }
{
    facts();
    encoding_width();
    same_values();
    fields_keep_same();
}

/// At each history of a tidy and typed program the outputs of the flat net of what is built have the bits of what the program means.
pub fn built_nets_mean()
    ensures { BuiltNetsMean }
{
    facts();
    all_have_bits();
    at_most_one_meaning();
    bits_through_uses();
    encoding_width();
    fields_keep_same();
    run_gives();
    runs_begin_with_top();
    same_values();
    steps_keep();
    what_is_shown_is_yielded();
    one_whole();
}

/// An output of a sound flat net has no other bits, and means no other data value.
pub fn outputs_have_one_meaning()
    ensures { OutputsHaveOneMeaning }
{
    a_wire_has_one_value();
    at_most_one_meaning();
}
