//! Shifts by a number of places of any size.
ghost use Rattle.std.specs.Prelude.{◌≡◌, ◌≤◌, ◌^◌, length, pos, IfOk};
ghost use Rattle.std.specs.Int.{int_div_euclid};
ghost use Rattle.prim_bits.specs.Results.{raised_of, lowered_of};
ghost use Rattle.chw_bits.specs.Integers.{residue_of};
ghost use Rattle.prim_bits.specs.Words.{integer_of};

use crate::words::{number, residue, signed_number, word};
use chw_base::NoMemory;
use chw_bits::{Bits, machine};
use chw_types::Scalar;
use std::alloc::Global;

/// The greatest integer that is at most a word's quotient by 2 to a number of places, modulo 2 to the 128.
fn quotient(x: Scalar, a: &Bits, places: u128) -> u128
    requires { length a.now ≤ 128 }
    ensures { result ≡ residue_of 128 (int_div_euclid (integer_of x a.now) (pos (2 ^ places))) }
{
    match x {
        Scalar::U | Scalar::B => machine::down(number(a), places),
        Scalar::S => machine::signed_quotient(signed_number(a), places).cast_unsigned(),
    }
}

/// A word moved up by as many places as another word's number, with zeros below.
pub(crate) fn raised(
    alloc: Global,
    x: Scalar,
    width: u32,
    a: &Bits,
    places: &Bits,
) -> Result<Bits, NoMemory>
    requires left { length a.now ≤ 128 }
    requires right { length places.now ≤ 128 }
    requires whole { width ≤ 128 }
    ensures { IfOk result (λ r. r ≡ raised_of x width a.now places.now) }
{
    word(
        alloc,
        width,
        machine::up(width, residue(x, a), number(places)),
    )
}

/// A word moved down by as many places as another word's number, with zeros above, or copies of the sign where it is signed.
pub(crate) fn lowered(
    alloc: Global,
    x: Scalar,
    width: u32,
    a: &Bits,
    places: &Bits,
) -> Result<Bits, NoMemory>
    requires left { length a.now ≤ 128 }
    requires right { length places.now ≤ 128 }
    requires whole { width ≤ 128 }
    ensures { IfOk result (λ r. r ≡ lowered_of x width a.now places.now) }
{
    word(alloc, width, quotient(x, a, number(places)))
}
