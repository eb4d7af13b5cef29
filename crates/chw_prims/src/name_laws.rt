//! What the names of the primitives are.
ghost use Rattle.std.specs.Prelude.{◌≡◌, length};
ghost use Rattle.std.specs.List.{Contains};
ghost use Rattle.chw_prims.specs.declared.prim.Primitive.{Primitive};
ghost use Rattle.chw_prims.specs.declared.names.TheConstants.{ALL};
ghost use Rattle.chw_prims.specs.Names.{name_of};

/// No two primitives have one name.
pub fn names_are_distinct()
    ensures { (p q : Primitive) → name_of p ≡ name_of q → p ≡ q }
{}

/// Each primitive is among all of them.
pub fn all_are_all()
    ensures { (p : Primitive) → Contains ALL p }
{}
