//! The numbers of words.
ghost use Rattle.std.specs.Prelude.{◌≡◌, ◌==◌, ◌<◌, nat_lt, min, ◌-◌, ◌^◌, ◌≤◌, length};
ghost use Rattle.std.specs.Char.{digit_value};
ghost use Rattle.std.specs.Prelude.{◌&&◌, ◌+◌, nat_le};
ghost use Rattle.chw_base.specs.declared.limits.TheConstants.{WIRE_BITS};
ghost use Rattle.verilog_rules.specs.Texts.{size, width};
ghost use Rattle.verilog_text.specs.Declared.{value};

use crate::cut::before;
use verilog_tree::{Range, Word};

/// The number of a digit, and 36 of another byte.
pub(crate) fn digit(byte: u8) -> u64
    ensures { result ≡ digit_value byte }
{
    u64::from(char::from(byte).to_digit(36).unwrap_or(36))
}

// The number that digits write, or the greatest of its type where that is less.
fn number(digits: &[u8]) -> u64
    ensures { result ≡ min (value digits.now) (2 ^ 64 - 1) }
{
    let mut number: u64 = 0;
    for byte in digits {
        number = number.saturating_mul(10).saturating_add(digit(*byte));
    }
    number
}

/// Whether the number of these digits is below this one.
pub fn is_below(digits: &[u8], bound: u32) -> bool
    ensures { result ≡ nat_lt (value digits.now) bound }
{
    number(digits) < u64::from(bound)
}

/// Whether the size of a literal is below this number.
pub fn has_size_below(literal: &Word<'_>, bound: u32) -> bool
    ensures { result ≡ nat_lt (size literal.now) bound }
{
    is_below(before(literal.bytes, b'\''), bound)
}

/// Whether the number of these digits is this one.
pub fn is(digits: &[u8], n: u32) -> bool
    ensures { result ≡ (value digits.now == n) }
{
    number(digits) == u64::from(n)
}

/// The number of these digits, which has at most 32 bits.
pub fn exact(digits: &[u8]) -> u32
    requires { value digits.now < 2 ^ 32 }
    ensures { result ≡ value digits.now }
{
    match u32::try_from(number(digits)) {
        Ok(number) => number,
        Err(_) => unreachable!(),
    }
}

/// How many bits a range has that is no wider than a wire may be.
pub fn bits_of(range: &Range<'_>) -> u32
    requires { width range.now ≤ WIRE_BITS }
    ensures { result ≡ width range.now }
{
    exact(range.from.bytes) + 1
}

/// Whether a range has so many bits.
pub fn has_bits(range: &Range<'_>, n: u32) -> bool
    ensures { result ≡ (width range.now == n) }
{
    n > 0 && is(range.from.bytes, n - 1)
}

/// Whether a literal has this size.
pub fn has_size(literal: &Word<'_>, n: u32) -> bool
    ensures { result ≡ (size literal.now == n) }
{
    is(before(literal.bytes, b'\''), n)
}

/// The size of a literal that is no wider than a wire may be.
pub fn size_of(literal: &Word<'_>) -> u32
    requires { size literal.now ≤ WIRE_BITS }
    ensures { result ≡ size literal.now }
{
    exact(before(literal.bytes, b'\''))
}

/// Whether bits from this one down to the one that digits write are so many.
pub fn runs_down(from: u32, to: &[u8], n: u32) -> bool
    ensures { result ≡ (nat_le (value to.now) from && (n == from - value to.now + 1)) }
{
    let to = number(to);
    to <= u64::from(from) && u64::from(n) == u64::from(from) - to + 1
}
