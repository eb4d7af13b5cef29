//! The type of a primitive.
ghost use Rattle.std.specs.Prelude.{◌≡◌, IfOk};
ghost use Rattle.chw_prims.specs.Schemas.{schema_type, row_type};
ghost use Rattle.chw_prims.specs.Signatures.{signature_type};

use crate::row::Row;
use crate::signature::Signature;
use crate::{Prim, signals, vectors, words};
use chw_base::NoMemory;
use chw_types::Ty;
use std::alloc::Global;

/// The type of a primitive, which asks for its type arguments first.
pub fn schema(alloc: Global, p: Prim) -> Result<Ty, NoMemory>
    ensures { IfOk result (λ t. t ≡ schema_type p) }
{
    signature_of(Row::of(p)).ty(alloc)
}

// The signature of a line of the table.
fn signature_of(row: Row) -> Signature
    ensures { signature_type result ≡ row_type row }
{
    match row {
        Row::Binary(x) => words::binary(x),
        Row::WideSum(x) => words::wide_sum(x),
        Row::WideProduct(x) => words::wide_product(x),
        Row::Unary(x) => words::unary(x),
        Row::Shift(x) => words::shift(x),
        Row::Compare(x) => words::compare(x),
        Row::Extend(x) => words::extend(x),
        Row::Truncate(x) => words::truncate(x),
        Row::Cut => words::cut(),
        Row::Joined => words::joined(),
        Row::Reduce => words::reduce(),
        Row::Packed(x) => words::packed(x),
        Row::Unpacked(x) => words::unpacked(x),
        Row::Mapping => signals::mapping(),
        Row::Applying => signals::applying(),
        Row::Constant => signals::constant(),
        Row::Delay => signals::delay(),
        Row::Memory => signals::memory(),
        Row::Crossing => signals::crossing(),
        Row::Element(kind) => vectors::element(kind),
        Row::ElementAt => vectors::element_at(),
        Row::Replaced => vectors::replaced(),
        Row::Mapped(kind) => vectors::mapped(kind),
        Row::Zipped(kind) => vectors::zipped(kind),
        Row::FoldedLeft(kind) => vectors::folded_left(kind),
        Row::FoldedRight(kind) => vectors::folded_right(kind),
        Row::Generated(kind) => vectors::generated(kind),
        Row::Replicated(kind) => vectors::replicated(kind),
        Row::Appended(kind) => vectors::appended(kind),
        Row::Concatenated(kind) => vectors::concatenated(kind),
        Row::Taken(kind) => vectors::taken(kind),
        Row::Dropped(kind) => vectors::dropped(kind),
        Row::Reversed(kind) => vectors::reversed(kind),
        Row::Rotated(kind) => vectors::rotated(kind),
    }
}
