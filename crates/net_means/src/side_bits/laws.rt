//! Laws of right sides, each as the contract of a call that does nothing.
ghost use Rattle.net_means.specs.SideBits.Cases.{CasesBear, FieldsHaveBits, FirstIsChosen, FirstIsTaken, TakenIsFirst};
ghost use Rattle.net_means.specs.SideBits.Laws.{ConstructorsBear, ElementsBear, IndexedBear, LiteralsBear, NamesBear, PrimitivesBear, SidesBear, SidesHoldNoMade, VectorsBear};

use chw_types::laws::same_values;
use net_grounds::laws::facts;
use type_laws::laws::fields_keep_same;

/// A variable and a literal have bits, on their thunks and on their wires.
pub fn simple_sides_bear()
    ensures name { NamesBear }
    ensures literal { LiteralsBear }
{
    facts();
    same_values();
    fields_keep_same();
}

/// A vector and a constructor have bits where their operands have.
pub fn data_sides_bear()
    ensures vector { VectorsBear }
    ensures constructor { ConstructorsBear }
{
    facts();
    same_values();
    fields_keep_same();
}

/// A primitive on words has the bits of its value where its operands have words.
pub fn primitive_sides_bear()
    ensures { PrimitivesBear }
{
    facts();
    same_values();
    fields_keep_same();
}

/// An element of a vector has bits where the vector has, and its index, if it is looked at.
pub fn element_sides_bear()
    ensures number { ElementsBear }
    ensures index { IndexedBear }
{
    facts();
    same_values();
    fields_keep_same();
}

/// Each right side of a normal block that is neither a call nor a case has bits where the variables at which it looks have.
pub fn sides_bear()
    ensures { SidesBear }
{
    facts();
    same_values();
    fields_keep_same();
}

/// No made definition occurs in a right side that is neither a call nor a case.
pub fn sides_hold_no_made()
    ensures { SidesHoldNoMade }
{}

/// The alternative that the meaning of a case takes is the first for the bits, and the cells take it too.
pub fn first_alternatives_are_taken()
    ensures meaning { FirstIsTaken }
    ensures back { TakenIsFirst }
    ensures cells { FirstIsChosen }
{
    facts();
    same_values();
}

/// A case has the bits of the alternative that is taken.
pub fn cases_bear()
    ensures { CasesBear }
{
    facts();
    same_values();
}

/// In an alternative the variables of the fields have bits, and so has each variable from outside that has bits there.
pub fn variables_of_alternatives_bear()
    ensures { FieldsHaveBits }
{
    facts();
}
