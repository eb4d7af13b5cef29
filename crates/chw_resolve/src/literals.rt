//! The sort and the bits of a literal.
ghost use Rattle.std.specs.Prelude.{◌≡◌, ◌<◌, ◌≤◌, ◌^◌, IfOk, IfSome};
ghost use Rattle.chw_bits.specs.Bits.{bits_of};
ghost use Rattle.chw_grammar.specs.Literals.{within};
ghost use Rattle.chw_grammar.specs.declared.literal.Letter.TheVariants.{S};
ghost use Rattle.chw_resolve.specs.Literals.{sort_of, unfit, number_in, bits_in};

use chw_base::limits::SCALAR_BITS;
use chw_base::{NoMemory, Or};
use chw_bits::Bits;
use chw_grammar::{Letter, Literal};
use chw_types::Scalar;
use std::alloc::Global;

/// The sort of scalars that has literals of this letter.
pub fn sort_of(letter: Letter) -> Scalar
    ensures { result ≡ sort_of letter }
{
    match letter {
        Letter::U => Scalar::U,
        Letter::S => Scalar::S,
        Letter::B => Scalar::B,
    }
}

/// The bits of a literal: those of its width. Where its value isn't in range, or a scalar may not have its width, one bit more than a
/// scalar may have.
pub fn bits_in(alloc: Global, literal: Literal) -> Result<Bits, NoMemory>
    ensures { IfOk result (λ bits. bits ≡ bits_in literal) }
{
    let Some(value) = literal.value else {
        return unfit(alloc);
    };
    let Some(width) = literal.width else {
        return unfit(alloc);
    };
    if width > SCALAR_BITS {
        return unfit(alloc);
    }
    match number_in(literal.letter, literal.negative, value, width) {
        Some(number) => bits_of(alloc, width, number),
        None => unfit(alloc),
    }
}

/// The bits of a literal that is none.
fn unfit(alloc: Global) -> Result<Bits, NoMemory>
    ensures { IfOk result (λ bits. bits ≡ unfit) }
{
    let bits = Vec::from_elem(alloc, false, SCALAR_BITS as usize + 1)?;
    Ok(Bits::of_list(bits))
}

/// The bits of a number that fits its width.
fn bits_of(alloc: Global, width: u32, number: u128) -> Result<Bits, NoMemory>
    requires { number < 2 ^ width }
    ensures { IfOk result (λ bits. bits ≡ bits_of width number) }
{
    match Bits::of_number(alloc, width, number) {
        Ok(bits) => Ok(bits),
        Err(Or::Memory) => Err(NoMemory),
        Err(Or::Fault(_)) => unreachable!(),
    }
}

/// The number of the bits of a value in a width, where the value is in range.
fn number_in(letter: Letter, negative: bool, value: u128, width: u32) -> Option<u128>
    requires { width ≤ 128 }
    ensures number { result ≡ number_in letter negative value width }
    ensures fits { IfSome result (λ number. number < 2 ^ width) }
{
    match letter {
        Letter::U | Letter::B => unsigned_number(value, width),
        Letter::S => signed_number(negative, value, width),
    }
}

/// The value, where it fits the width.
fn unsigned_number(value: u128, width: u32) -> Option<u128>
    requires { width ≤ 128 }
    ensures number { result ≡ within width value }
    ensures fits { IfSome result (λ number. number < 2 ^ width) }
{
    if width == 128 {
        return Some(value);
    }
    if value < power_of_two(width) {
        Some(value)
    } else {
        None
    }
}

/// The number whose bits are a value in two's complement, where the value is in range.
fn signed_number(negative: bool, value: u128, width: u32) -> Option<u128>
    requires { width ≤ 128 }
    ensures number { result ≡ number_in S negative value width }
    ensures fits { IfSome result (λ number. number < 2 ^ width) }
{
    if value == 0 {
        return Some(0);
    }
    if width == 0 {
        return None;
    }
    let half = power_of_two(width - 1);
    if negative {
        if value <= half {
            Some(half - value + half)
        } else {
            None
        }
    } else if value < half {
        Some(value)
    } else {
        None
    }
}

/// Two to a number that is less than the bits of a machine word.
fn power_of_two(exponent: u32) -> u128
    requires { exponent < 128 }
    ensures { result ≡ 2 ^ exponent }
{
    1 << exponent
}
