//! Sums, differences and products.
ghost use Rattle.std.specs.Prelude.{◌≡◌, ◌≤◌, length, IfOk};
ghost use Rattle.prim_bits.specs.Results.{sum_of, difference_of, product_of};

use crate::words::{residue, word};
use chw_base::NoMemory;
use chw_bits::{Bits, machine};
use chw_types::Scalar;
use std::alloc::Global;

/// The sum of two words at a width.
pub(crate) fn sum(
    alloc: Global,
    x: Scalar,
    width: u32,
    a: &Bits,
    b: &Bits,
) -> Result<Bits, NoMemory>
    requires left { length a.now ≤ 128 }
    requires right { length b.now ≤ 128 }
    requires whole { width ≤ 128 }
    ensures { IfOk result (λ r. r ≡ sum_of x width a.now b.now) }
{
    word(
        alloc,
        width,
        machine::sum(width, residue(x, a), residue(x, b)),
    )
}

/// The difference of two words at a width.
pub(crate) fn difference(
    alloc: Global,
    x: Scalar,
    width: u32,
    a: &Bits,
    b: &Bits,
) -> Result<Bits, NoMemory>
    requires left { length a.now ≤ 128 }
    requires right { length b.now ≤ 128 }
    requires whole { width ≤ 128 }
    ensures { IfOk result (λ r. r ≡ difference_of x width a.now b.now) }
{
    word(
        alloc,
        width,
        machine::difference(width, residue(x, a), residue(x, b)),
    )
}

/// The product of two words at a width.
pub(crate) fn product(
    alloc: Global,
    x: Scalar,
    width: u32,
    a: &Bits,
    b: &Bits,
) -> Result<Bits, NoMemory>
    requires left { length a.now ≤ 128 }
    requires right { length b.now ≤ 128 }
    requires whole { width ≤ 128 }
    ensures { IfOk result (λ r. r ≡ product_of x width a.now b.now) }
{
    word(
        alloc,
        width,
        machine::product(width, residue(x, a), residue(x, b)),
    )
}
