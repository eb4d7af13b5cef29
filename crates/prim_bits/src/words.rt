//! Words as numbers of the machine, and back.
ghost use Rattle.std.specs.Prelude.{◌≡◌, ◌<◌, ◌≤◌, ◌^◌, length, IfOk};
ghost use Rattle.chw_bits.specs.Bits.{number_of, bits_of};
ghost use Rattle.chw_bits.specs.Bitwise.{one_bit};
ghost use Rattle.chw_bits.specs.Integers.{signed, residue_of};
ghost use Rattle.prim_bits.specs.Words.{integer_of};

use chw_base::{NoMemory, Or};
use chw_bits::{Bits, machine};
use chw_types::Scalar;
use std::alloc::Global;

/// The number of a word of at most 128 bits.
pub(crate) fn number(word: &Bits) -> u128
    requires { length word.now ≤ 128 }
    ensures value { result ≡ number_of word.now }
    ensures below { result < 2 ^ length word.now }
    ensures bits { bits_of (length word.now) result ≡ word.now }
{
    match word.number() {
        Some(n) => n,
        None => unreachable!(),
    }
}

/// The integer of a word of at most 128 bits in two's complement.
pub(crate) fn signed_number(word: &Bits) -> i128
    requires { length word.now ≤ 128 }
    ensures { result ≡ signed word.now }
{
    machine::signed_number(word.len(), number(word))
}

/// The integer of a word of at most 128 bits at its sort, modulo 2 to the 128.
pub(crate) fn residue(x: Scalar, word: &Bits) -> u128
    requires { length word.now ≤ 128 }
    ensures { result ≡ residue_of 128 (integer_of x word.now) }
{
    match x {
        Scalar::U | Scalar::B => number(word),
        Scalar::S => signed_number(word).cast_unsigned(),
    }
}

/// The lowest bits of a number, as many as the width.
pub(crate) fn word(alloc: Global, width: u32, n: u128) -> Result<Bits, NoMemory>
    ensures { IfOk result (λ r. r ≡ bits_of width n) }
{
    match Bits::of_number(alloc, width, machine::lowest(width, n)) {
        Ok(bits) => Ok(bits),
        Err(Or::Memory) => Err(NoMemory),
        Err(Or::Fault(_)) => unreachable!(),
    }
}

/// A truth value as one bit.
pub(crate) fn one(alloc: Global, bit: bool) -> Result<Bits, NoMemory>
    ensures { IfOk result (λ r. r ≡ one_bit bit) }
{
    let mut bits = Vec::new(alloc);
    bits.push(bit)?;
    Ok(Bits::of_list(bits))
}
