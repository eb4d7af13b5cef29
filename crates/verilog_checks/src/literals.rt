//! The bits that literals mean.
ghost use Rattle.std.specs.Prelude.{◌≡◌, ◌==◌, ◌<◌, ◌≤◌, ◌-◌, ◌^◌, IfOk, length, min};
ghost use Rattle.std.specs.List.{after_first};
ghost use Rattle.std.specs.Prelude.{drop};
ghost use Rattle.std.specs.Str.Parse.{AllDigits, digits_value};
ghost use Rattle.chw_bits.specs.Hex.{digits_at};
ghost use Rattle.verilog_checks.specs.Fitting.{Fits};
ghost use Rattle.verilog_checks.specs.Formed.{IsFormed};
ghost use Rattle.verilog_rules.specs.Texts.{amount, is_literal_of, is_word_of};
ghost use Rattle.std.specs.Prelude.{◌&&◌, nat_lt, ℕ};
ghost use Rattle.chw_base.specs.declared.limits.TheConstants.{ADDRESS_BITS};

use crate::cut::behind;
use crate::numbers::{digit, has_size};
use chw_base::limits::ADDRESS_BITS;
use chw_base::{NoMemory, Or};
use chw_bits::hex::digit_count;
use chw_bits::{Bits, HexFault};
use std::alloc::Global;
use verilog_tree::Word;

// The hexadecimal digits of a literal, behind `'h`.
fn digits<'t>(literal: &Word<'t>) -> &'t [u8]
    ensures digits { result.now ≡ drop 1 (after_first (λ b. b == 39) literal.now.bytes.now) }
    ensures hex { IsFormed literal.now → AllDigits 16 result.now }
{
    match behind(literal.bytes, b'\'') {
        [_, digits @ ..] => digits,
        [] => &[],
    }
}

// The number that hexadecimal digits write, or the greatest of its type where that is less.
fn number(digits: &[u8]) -> u64
    ensures { result ≡ min (digits_value 16 digits.now) (2 ^ 64 - 1) }
{
    let mut number: u64 = 0;
    for byte in digits {
        number = number.saturating_mul(16).saturating_add(digit(*byte));
    }
    number
}

// These digits behind as many zeros as make them so many.
fn padded(alloc: Global, count: usize, digits: &[u8]) -> Result<Vec<u8>, NoMemory>
    requires { length digits.now ≤ count }
    ensures count { IfOk result (λ text. length text.items ≡ count) }
    ensures hex { AllDigits 16 digits.now → IfOk result (λ text. AllDigits 16 text.items) }
    ensures number { IfOk result (λ text. digits_value 16 text.items ≡ digits_value 16 digits.now) }
{
    let mut text = vec![in alloc; b'0'; count - digits.len()]?;
    text.extend_from_slice(digits)?;
    Ok(text)
}

// The bits of as many digits as their width takes, where they fit it. Only memory may be wanting.
fn read_all(alloc: Global, width: u32, text: &[u8]) -> Result<Option<Bits>, NoMemory>
    requires count { length text.now ≡ digits_at width }
    requires hex { AllDigits 16 text.now }
    ensures { IfOk result (λ bits. Fits width (digits_value 16 text.now) bits) }
{
    match Bits::of_hex(alloc, width, text) {
        Ok(bits) => Ok(Some(bits)),
        Err(Or::Fault(HexFault::Width)) => Ok(None),
        Err(Or::Fault(HexFault::NotHex)) => unreachable!(),
        Err(Or::Memory) => Err(NoMemory),
    }
}

// The bits of digits, where they fit this width.
fn read(alloc: Global, width: u32, digits: &[u8]) -> Result<Option<Bits>, NoMemory>
    requires { AllDigits 16 digits.now }
    ensures { IfOk result (λ bits. Fits width (digits_value 16 digits.now) bits) }
{
    let count = digit_count(width) as usize;
    let extra = digits.len().saturating_sub(count);
    if number(&digits[..extra]) > 0 {
        return Ok(None);
    }
    let text = padded(alloc, count, &digits[extra..])?;
    read_all(alloc, width, &text)
}

/// The bits of this width that the number of a literal means, where it fits.
pub fn bits_in(alloc: Global, width: u32, literal: &Word<'_>) -> Result<Option<Bits>, NoMemory>
    requires { IsFormed literal.now }
    ensures { IfOk result (λ bits. Fits width (amount literal.now) bits) }
{
    read(alloc, width, digits(literal))
}

/// Whether a literal has this size, and its number fits.
pub fn is_word(alloc: Global, literal: &Word<'_>, width: u32) -> Result<bool, NoMemory>
    requires { IsFormed literal.now }
    ensures { IfOk result (λ r. r ≡ is_word_of width literal.now) }
{
    if !has_size(literal, width) {
        return Ok(false);
    }
    let bits = bits_in(alloc, width, literal)?;
    Ok(bits.is_some())
}

// Whether two numbers fit a width and are one.
fn are_one(a: Option<Bits>, b: Option<Bits>) -> bool
    ensures { (width m n : ℕ) → Fits width m a → Fits width n b → result ≡ (nat_lt m (2 ^ width) && (m == n)) }
{
    match (a, b) {
        (Some(a), Some(b)) => a.as_slice() == b.as_slice(),
        _ => false,
    }
}

/// Whether a literal has this size, its number fits, and it is the number of the other literal.
pub fn is_word_of_number(
    alloc: Global,
    literal: &Word<'_>,
    width: u32,
    other: &Word<'_>,
) -> Result<bool, NoMemory>
    requires literal { IsFormed literal.now }
    requires other { IsFormed other.now }
    ensures { IfOk result (λ r. r ≡ is_literal_of width (amount other.now) literal.now) }
{
    if !has_size(literal, width) {
        return Ok(false);
    }
    let bits = bits_in(alloc, width, literal)?;
    let others = bits_in(alloc, width, other)?;
    Ok(are_one(bits, others))
}

/// Whether a literal is zeros of this size.
pub fn is_zeros(literal: &Word<'_>, width: u32) -> bool
    ensures { result ≡ is_literal_of width 0 literal.now }
{
    has_size(literal, width) && number(digits(literal)) == 0
}

/// Whether a literal is this number, as wide as an address.
pub fn is_count(literal: &Word<'_>, n: u32) -> bool
    ensures { result ≡ is_literal_of ADDRESS_BITS n literal.now }
{
    n < 1 << ADDRESS_BITS
        && has_size(literal, ADDRESS_BITS)
        && number(digits(literal)) == u64::from(n)
}
