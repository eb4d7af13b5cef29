//! What is known of types, layouts, meanings, cells and nets, by subject, each as the contract of a call that does nothing.
ghost use Rattle.net_grounds.specs.BuiltParts.{BuiltFacts};
ghost use Rattle.net_grounds.specs.Cases.{CaseFacts};
ghost use Rattle.net_grounds.specs.Cells.{CellFacts};
ghost use Rattle.net_grounds.specs.Constructors.{ConstructorFacts};
ghost use Rattle.net_grounds.specs.Data.{DataFacts};
ghost use Rattle.net_grounds.specs.DataCells.{DataCellFacts};
ghost use Rattle.net_grounds.specs.Encodings.{EncodingFacts};
ghost use Rattle.net_grounds.specs.Environments.{EnvironmentFacts};
ghost use Rattle.net_grounds.specs.Facts.{Facts};
ghost use Rattle.net_grounds.specs.FlatNets.{FlatFacts};
ghost use Rattle.net_grounds.specs.Kinds.{KindFacts};
ghost use Rattle.net_grounds.specs.Measures.{MeasureFacts};
ghost use Rattle.net_grounds.specs.Patterns.{PatternFacts};
ghost use Rattle.net_grounds.specs.Ports.{PortFacts};
ghost use Rattle.net_grounds.specs.Prims.{PrimFacts};
ghost use Rattle.net_grounds.specs.Same.{SameFacts};
ghost use Rattle.net_grounds.specs.SameLayout.{SameLayoutFacts};
ghost use Rattle.net_grounds.specs.Scopes.{ScopeFacts};
ghost use Rattle.net_grounds.specs.Shows.{ShowFacts};
ghost use Rattle.net_grounds.specs.Signals.{SignalFacts};
ghost use Rattle.net_grounds.specs.Terms.{TermFacts};
ghost use Rattle.net_grounds.specs.Vectors.{VectorFacts};
ghost use Rattle.net_grounds.specs.Widths.{WidthFacts};
ghost use Rattle.net_grounds.specs.Words.{WordFacts};

use carrying::laws::{
    cases_show, constructors_carry, fields_show, primitives_show, signals_show,
    variables_of_environments, vectors_carry,
};
use cell_bits::data_laws::{
    addresses_bear_numbers, cases_bear_results, constructors_bear_encodings, elements_bear_values,
    fields_bear_values, vectors_bear_elements,
};
use chw_bits::laws::{length_of_made_bits, number_of_made_bits};
use chw_layout::laws::tags;
use chw_types::laws::same_as_itself;
use layout_laws::laws::numbers_of_constructors;

/// Types that are the same up to naturals have one form, and parts that are the same.
pub fn types_that_are_the_same()
    ensures { SameFacts }
{
    same_as_itself();
}

/// The types of variables in scope, and lists of types that are the same.
pub fn types_of_variables()
    ensures { ScopeFacts }
{}

/// Kinds of types: those of functions, of fields, and of data types.
pub fn kinds_of_types()
    ensures { KindFacts }
{}

/// Types of terms, and of heads on arguments.
pub fn types_of_terms()
    ensures { TermFacts }
{}

/// Patterns for values of a type: what they bind.
pub fn patterns_of_types()
    ensures { PatternFacts }
{}

/// The numbers of constructors, and their places in their data types.
pub fn constructors_by_number()
    ensures { ConstructorFacts }
{
    numbers_of_constructors();
}

/// Measures of types: which ones there are for each form.
pub fn measures_of_types()
    ensures { MeasureFacts }
{}

/// Widths of types, by their forms.
pub fn widths_of_types()
    ensures { WidthFacts }
{}

/// Types that are the same have one layout.
pub fn layouts_of_same_types()
    ensures { SameLayoutFacts }
{}

/// Leaves of ports.
pub fn leaves_of_ports()
    ensures { PortFacts }
{}

/// Encodings of data values.
pub fn encodings_of_values()
    ensures { EncodingFacts }
{
    tags();
    length_of_made_bits();
}

/// The values of primitives on words.
pub fn values_of_words()
    ensures { WordFacts }
{}

/// Which bits thunks show, by what they go on with.
pub fn bits_that_thunks_show()
    ensures { ShowFacts }
{}

/// Which thunks the variables of an environment have.
pub fn thunks_of_variables()
    ensures { EnvironmentFacts }
{
    variables_of_environments();
}

/// Which bits cases show.
pub fn bits_of_cases()
    ensures { CaseFacts }
{
    cases_show();
}

/// Which bits constructors and fields show.
pub fn bits_of_data()
    ensures { DataFacts }
{
    constructors_carry();
    fields_show();
    number_of_made_bits();
}

/// Which bits vectors and their elements show.
pub fn bits_of_vectors()
    ensures { VectorFacts }
{
    vectors_carry();
}

/// Which bits primitives on words show, and what heads on arguments evaluate to.
pub fn bits_of_primitives()
    ensures { PrimFacts }
{
    primitives_show();
}

/// Which bits signals show that are made of others.
pub fn bits_of_signals()
    ensures { SignalFacts }
{
    signals_show();
}

/// Which bits the wires of cells have.
pub fn bits_of_cells()
    ensures { CellFacts }
{}

/// Which bits the cells of constructors, fields, cases, vectors and addresses give.
pub fn bits_of_cells_of_data()
    ensures { DataCellFacts }
{
    constructors_bear_encodings();
    fields_bear_values();
    vectors_bear_elements();
    elements_bear_values();
    cases_bear_results();
    addresses_bear_numbers();
}

/// What is built of a made definition: widths of parts, types of variables, and an order of cells.
pub fn parts_of_built_nets()
    ensures { BuiltFacts }
{}

/// The wires of instances in a flat net, and histories of its ports.
pub fn wires_of_flat_nets()
    ensures { FlatFacts }
{}

/// All of these facts.
pub fn facts()
    ensures { Facts }
{
    types_that_are_the_same();
    types_of_variables();
    kinds_of_types();
    types_of_terms();
    patterns_of_types();
    constructors_by_number();
    measures_of_types();
    widths_of_types();
    layouts_of_same_types();
    leaves_of_ports();
    encodings_of_values();
    values_of_words();
    bits_that_thunks_show();
    thunks_of_variables();
    bits_of_cases();
    bits_of_data();
    bits_of_vectors();
    bits_of_primitives();
    bits_of_signals();
    bits_of_cells();
    bits_of_cells_of_data();
    parts_of_built_nets();
    wires_of_flat_nets();
}
