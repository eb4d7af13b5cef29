//! Words made wider and narrower.
ghost use Rattle.std.specs.Prelude.{◌≡◌, ◌≤◌, ◌/◌, ◌^◌, length, IfOk};
ghost use Rattle.chw_bits.specs.Bits.{number_of, bits_of};
ghost use Rattle.chw_bits.specs.Integers.{word_of};
ghost use Rattle.prim_bits.specs.Words.{integer_of};

use crate::words::{number, residue, word};
use chw_base::NoMemory;
use chw_bits::Bits;
use chw_bits::machine::down;
use chw_types::Scalar;
use std::alloc::Global;

/// A word's integer at a width.
pub(crate) fn extended(alloc: Global, x: Scalar, width: u32, a: &Bits) -> Result<Bits, NoMemory>
    requires word { length a.now ≤ 128 }
    requires whole { width ≤ 128 }
    ensures { IfOk result (λ r. r ≡ word_of width (integer_of x a.now)) }
{
    word(alloc, width, residue(x, a))
}

/// As many bits of a word as the width, above its lowest ones.
pub(crate) fn middle(alloc: Global, below: u32, width: u32, a: &Bits) -> Result<Bits, NoMemory>
    requires { length a.now ≤ 128 }
    ensures { IfOk result (λ r. r ≡ bits_of width (number_of a.now / 2 ^ below)) }
{
    word(alloc, width, down(number(a), u128::from(below)))
}
