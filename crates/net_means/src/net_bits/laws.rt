//! Laws of built nets, each as the contract of a call that does nothing.
ghost use Rattle.net_means.specs.NetBits.Whole.{AllHaveBits, CircuitsStay};

use crate::circuit_bits::laws::{
    copies_have, delays_have, empty_leaves_have, followers_have, leaves_have_fields, memories_have,
    products_have, samples_have, uses_have,
};
use crate::side_bits::laws::{
    cases_bear, first_alternatives_are_taken, sides_bear, variables_of_alternatives_bear,
};
use crate::wire_order::laws::{
    cases_settle, copies_settle, fields_settle, settled_in_order, sides_settle, uses_settle,
};
use carrying::laws::{fields_show, tags_show};
use cell_bits::data_laws::cases_bear_results;
use chw_types::laws::same_values;
use chw_typing::spine_laws::saturated_spines;
use layout_laws::laws::{numbers_of_constructors, same_types_keep_layout};
use net_grounds::laws::facts;
use netlist::laws::{a_wire_has_one_value, an_order_excludes_loops, every_wire_has_a_value};
use type_laws::laws::fields_keep_same;
use use_laws::laws::bits_through_uses;

/// A circuit's block that stands at a history stands at each.
pub fn circuits_stay()
    ensures { CircuitsStay }
{
    facts();
    same_types_keep_layout();
}

/// All variables of all blocks that stand in instances have the bits that they mean.
pub fn all_have_bits()
    ensures { AllHaveBits }
{
    facts();
    same_values();
    fields_keep_same();
    same_types_keep_layout();
    numbers_of_constructors();
    saturated_spines();
    sides_bear();
    cases_bear();
    variables_of_alternatives_bear();
    first_alternatives_are_taken();
    cases_bear_results();
    tags_show();
    fields_show();
    copies_have();
    delays_have();
    products_have();
    leaves_have_fields();
    empty_leaves_have();
    followers_have();
    uses_have();
    samples_have();
    memories_have();
    settled_in_order();
    sides_settle();
    cases_settle();
    fields_settle();
    uses_settle();
    copies_settle();
    bits_through_uses();
    an_order_excludes_loops();
    every_wire_has_a_value();
    a_wire_has_one_value();
}
