//! Numbers as indices of some bits.
ghost use Rattle.std.specs.Prelude.{◌≡◌, ◌^◌, ◌%◌, ◌<◌, min, nat_lt, IfOk};
ghost use Rattle.chw_bits.specs.Bits.{bits_of};
ghost use Rattle.chw_terms.specs.Unrolled.{index};

use chw_base::{NoMemory, Or};
use chw_bits::Bits;
use chw_terms::{Scalar, Term};
use std::alloc::Global;

/// Whether k bits hold a number.
pub(crate) fn holds(k: u32, j: u32) -> bool
    ensures { result ≡ nat_lt j (2 ^ k) }
{
    k >= u32::BITS || j < 1 << k
}

/// How many of the numbers below n k bits hold.
pub(crate) fn held(k: u32, n: u32) -> u32
    ensures { result ≡ min n (2 ^ k) }
{
    if k >= u32::BITS { n } else { n.min(1 << k) }
}

// What k bits hold of a number.
fn wrapped(k: u32, j: u32) -> u32
    ensures rest { result ≡ j % 2 ^ k }
    ensures fits { result < 2 ^ k }
{
    if k >= u32::BITS { j } else { j % (1 << k) }
}

/// The k lowest bits of a number.
pub(crate) fn index_bits(alloc: Global, k: u32, j: u32) -> Result<Bits, NoMemory>
    ensures { IfOk result (λ bits. bits ≡ bits_of k j) }
{
    chw_bits::laws::length_of_made_bits();
    chw_bits::laws::number_of_made_bits();
    chw_bits::laws::bits_made_of_their_number();
    match Bits::of_number(alloc, k, u128::from(wrapped(k, j))) {
        Ok(bits) => Ok(bits),
        Err(Or::Memory) => Err(NoMemory),
        Err(Or::Fault(_)) => unreachable!(),
    }
}

/// The literal of the k lowest bits of a number.
pub(crate) fn index(alloc: Global, k: u32, j: u32) -> Result<Term, NoMemory>
    ensures { IfOk result (λ e. e ≡ index k j) }
{
    Ok(Term::lit(alloc, Scalar::U, index_bits(alloc, k, j)?))
}
