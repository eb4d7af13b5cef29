//! How many arguments heads ask for.
ghost use Rattle.std.specs.Prelude.{◌≡◌};
ghost use Rattle.chw_prims.specs.Schemas.{row_type, schema_type};
ghost use Rattle.chw_typing.specs.HeadTypes.{con_type};
ghost use Rattle.con_places.specs.Constructing.{constructor_of};
ghost use Rattle.rewriting.specs.Spots.{asked_for};

use chw_prims::{Prim, Row};
use con_places::Constructor;

// How many types and terms primitives of this row ask for.
fn asked_for_in(row: Row) -> usize
    ensures { result ≡ asked_for (row_type row) }
{
    match row {
        Row::Unary(_) | Row::Reduce | Row::Packed(_) | Row::Unpacked(_) => 2,
        Row::Binary(_) | Row::WideSum(_) | Row::Compare(_) => 3,
        Row::Extend(_) | Row::Truncate(_) | Row::Constant => 3,
        Row::Replicated(_) | Row::Reversed(_) => 3,
        Row::WideProduct(_) | Row::Shift(_) | Row::Cut | Row::Joined => 4,
        Row::Delay | Row::Crossing | Row::Element(_) => 4,
        Row::Generated(_) | Row::Concatenated(_) => 4,
        Row::Taken(_) | Row::Dropped(_) | Row::Rotated(_) => 4,
        Row::Mapping | Row::Applying | Row::ElementAt => 5,
        Row::Mapped(_) | Row::Appended(_) => 5,
        Row::Replaced | Row::FoldedLeft(_) | Row::FoldedRight(_) => 6,
        Row::Zipped(_) | Row::Memory => 7,
    }
}

/// How many types and terms the primitive asks for.
pub(crate) fn asked_for_by(which: Prim) -> usize
    ensures { result ≡ asked_for (schema_type which) }
{
    asked_for_in(Row::of(which))
}

/// How many types and terms the constructor asks for: its data type's parameters, and its fields.
pub(crate) fn asked_for_of(it: &Constructor<'_>) -> usize
    ensures { result ≡ asked_for (con_type (constructor_of it.now)) }
{
    let params = it.it.params.as_slice();
    let fields = it.decl.fields.as_slice();
    params.len() + fields.len()
}
