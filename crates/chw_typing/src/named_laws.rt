//! Laws of representable types and of ports, each as the contract of a call that does nothing.
ghost use Rattle.chw_typing.specs.NamedLaws.{RepresentableIsVal, PortIsCir, NoTypeIsBoth, ElementsOfRepresentable, FieldsOfRepresentable, FieldsOfPortArePorts, FieldsHaveKinds, NoCycleBothWays, RepresentableIsDecided, PortIsDecided};

/// Over sound settings a closed type that is representable is one of values, and a port one of circuits. No type is both.
pub fn kinds_of_named_types()
    ensures representable { RepresentableIsVal }
    ensures port { PortIsCir }
    ensures both { NoTypeIsBoth }
{}

/// The elements of a representable vector are representable, and so are the fields of representable data; the fields of a port are ports.
pub fn parts_of_named_types()
    ensures elements { ElementsOfRepresentable }
    ensures fields { FieldsOfRepresentable }
    ensures ports { FieldsOfPortArePorts }
{}

/// A field with closed arguments put in is closed, and has the kind that it has over the parameters.
pub fn fields_have_kinds()
    ensures { FieldsHaveKinds }
{}

/// No data type leads back to itself exactly where they have an order in which each refers only to earlier ones.
pub fn data_types_in_order()
    ensures { NoCycleBothWays }
{}

/// Where no data type leads back to itself, a type is representable or it isn't, and a port or it isn't.
pub fn named_types_are_decided()
    ensures representable { RepresentableIsDecided }
    ensures port { PortIsDecided }
{}
