//! The laws, each as the contract of a call that does nothing.
ghost use Rattle.net_means.specs.WireOrder.Laws.{SettledInOrder, NamesSettle, LiteralsSettle, VectorsSettle, ConstructorsSettle, PrimitivesSettle, ElementsSettle, IndexedSettle, SidesSettle};
ghost use Rattle.net_means.specs.WireOrder.Laws.{OneResult, ResultsSettle, TestedSettle, LooksSettle, LooksHaveSeveral, FieldsSettle, UsesSettle, InputsSettle, ValueUsesSettle, ValueInputsSettle};
ghost use Rattle.net_means.specs.WireOrder.Laws.{CopiesSettle, CrossingsSettle, ProductsSettle, ProjectedParts, ProjectionsSettle};

use chw_types::laws::same_values;
use net_grounds::laws::facts;
use type_laws::laws::fields_keep_same;

/// Where the flat net has an order, the wires of instances have ranks that fall to those by which they settle.
pub fn settled_in_order()
    ensures { SettledInOrder }
{
    facts();
}

/// The last wire of a variable, a vector or a constructor settles by its operands, and a literal has none.
pub fn data_sides_settle()
    ensures name { NamesSettle }
    ensures literal { LiteralsSettle }
    ensures vector { VectorsSettle }
    ensures constructor { ConstructorsSettle }
{}

/// The last wire of a primitive on words settles by its operands.
pub fn primitive_sides_settle()
    ensures { PrimitivesSettle }
{
    facts();
    same_values();
}

/// The last wire of an element of a vector settles by the vector, and by its index, if it is looked at.
pub fn element_sides_settle()
    ensures number { ElementsSettle }
    ensures index { IndexedSettle }
{
    facts();
    same_values();
}

/// The last wire of each right side of a normal block that is neither a call nor a case settles by all at which the side looks.
pub fn sides_settle()
    ensures { SidesSettle }
{
    facts();
    same_values();
}

/// The wires of a case of several alternatives settle by those of each result, and by those of what is tested; a case of one alternative has the
/// wires of its result.
pub fn cases_settle()
    ensures one { OneResult }
    ensures result { ResultsSettle }
    ensures tested { TestedSettle }
    ensures looks { LooksSettle }
    ensures several { LooksHaveSeveral }
{
    facts();
}

/// The wires of fields settle by those of the variable from which they are cut.
pub fn fields_settle()
    ensures { FieldsSettle }
{}

/// What a use gives settles by the outputs of the used instance, and the inputs of that by what the use reads.
pub fn uses_settle()
    ensures output { UsesSettle }
    ensures input { InputsSettle }
    ensures value_output { ValueUsesSettle }
    ensures value_input { ValueInputsSettle }
{}

/// Right sides of circuits that copy leaves settle by these, leaf by leaf: a variable, a signal from another domain, a product, and a projection,
/// whose parts are those of the field.
pub fn copies_settle()
    ensures name { CopiesSettle }
    ensures crossing { CrossingsSettle }
    ensures product { ProductsSettle }
    ensures parts { ProjectedParts }
    ensures projection { ProjectionsSettle }
{
    facts();
    same_values();
    fields_keep_same();
}
