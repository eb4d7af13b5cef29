//! Laws of the primitives, each as the contract of a call that does nothing.
ghost use Rattle.chw_prims.specs.SchemaKinds.{SchemasHaveKinds};

/// The type of each primitive has a kind.
pub fn schemas_have_kinds()
    ensures { SchemasHaveKinds }
{}
