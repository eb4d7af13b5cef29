//! Words bit by bit.
ghost use Rattle.std.specs.Prelude.{◌≡◌, ◌≤◌, ◌&&◌, ◌||◌, not, map, length, IfOk};
ghost use Rattle.chw_bits.specs.Bitwise.{bit_by_bit, differ};

use crate::words::{number, word};
use chw_base::NoMemory;
use chw_bits::{Bits, machine};
use std::alloc::{AllocError, Global};

/// The bits that are set in both words.
pub(crate) fn both(alloc: Global, a: &Bits, b: &Bits) -> Result<Bits, NoMemory>
    ensures { IfOk result (λ r. r ≡ bit_by_bit (λ x y. x && y) a.now b.now) }
{
    let bits = each_both(alloc, a.as_slice(), b.as_slice())?;
    Ok(Bits::of_list(bits))
}

fn each_both(alloc: Global, a: &[bool], b: &[bool]) -> Result<Vec<bool>, AllocError>
    ensures { IfOk result (λ v. v.items ≡ bit_by_bit (λ x y. x && y) a.now b.now) }
{
    a.iter().zip(b).map(|(x, y)| *x & *y).collect(alloc)
}

/// The bits that are set in one of two words or in both.
pub(crate) fn either(alloc: Global, a: &Bits, b: &Bits) -> Result<Bits, NoMemory>
    ensures { IfOk result (λ r. r ≡ bit_by_bit (λ x y. x || y) a.now b.now) }
{
    let bits = each_either(alloc, a.as_slice(), b.as_slice())?;
    Ok(Bits::of_list(bits))
}

fn each_either(alloc: Global, a: &[bool], b: &[bool]) -> Result<Vec<bool>, AllocError>
    ensures { IfOk result (λ v. v.items ≡ bit_by_bit (λ x y. x || y) a.now b.now) }
{
    a.iter().zip(b).map(|(x, y)| *x | *y).collect(alloc)
}

/// The bits that are set in just one of two words.
pub(crate) fn differing(alloc: Global, a: &Bits, b: &Bits) -> Result<Bits, NoMemory>
    ensures { IfOk result (λ r. r ≡ bit_by_bit differ a.now b.now) }
{
    let bits = each_differing(alloc, a.as_slice(), b.as_slice())?;
    Ok(Bits::of_list(bits))
}

fn each_differing(alloc: Global, a: &[bool], b: &[bool]) -> Result<Vec<bool>, AllocError>
    ensures { IfOk result (λ v. v.items ≡ bit_by_bit differ a.now b.now) }
{
    a.iter()
        .zip(b)
        .map(|(x, y)| (*x & !*y) | (!*x & *y))
        .collect(alloc)
}

/// The bits of a word that aren't set.
pub(crate) fn flipped(alloc: Global, a: &Bits) -> Result<Bits, NoMemory>
    requires { length a.now ≤ 128 }
    ensures { IfOk result (λ r. r ≡ map not a.now) }
{
    let width = a.len();
    word(alloc, width, machine::flipped(width, number(a)))
}
