//! Bits read from hexadecimal text.
ghost use Rattle.std.specs.Prelude.{◌≡◌, ◌+◌, ◌<◌, ◌≤◌, ◌*◌, ◌^◌, ◌++◌, ◌↔◌, length, take, IfOk, IsTrue};
ghost use Rattle.std.specs.Char.{digit_value};
ghost use Rattle.std.specs.Str.Parse.{digits_value, AllDigits};
ghost use Rattle.chw_base.specs.Outcome.{IfFault, OnMemory};
ghost use Rattle.chw_bits.specs.Bits.{bit_of, bits_of};
ghost use Rattle.chw_bits.specs.Hex.{HasWidth, IsFaultOf, digits_at};

use crate::bits::Bits;
use crate::hex::digit_count;
use crate::places::{bit_at, fits};
use chw_base::Or;
use std::alloc::Global;
use thiserror::Error;

/// Why a text doesn't mean bits of a width.
#[derive(Clone, Copy, Debug, PartialEq, Eq, Error)]
pub enum HexFault {
    /// A byte isn't a hexadecimal digit of either case.
    #[error("not a hexadecimal digit")]
    NotHex,
    /// There are too few or too many digits, or a bit above the width is set.
    #[error("not as wide as its place")]
    Width,
}

// Whether each byte is a hexadecimal digit of either case.
//
// It goes on behind a byte that is none, so that the processor tests many at once.
fn is_hex(text: &[u8]) -> bool
    ensures { IsTrue result ↔ AllDigits 16 text.now }
{
    let mut all = true;
    for byte in text {
        all &= char::from(*byte).is_digit(16);
    }
    all
}

// The number of a hexadecimal digit.
//
// The letters of both cases begin behind a multiple of 16, and behind 64, unlike 0 to 9.
fn number_of_digit(byte: u8) -> u8
    requires { digit_value byte < 16 }
    ensures { result ≡ digit_value byte }
{
    byte % 16 + byte / 64 * 9
}

// Whether the number of a hexadecimal text, with the digits that a width takes, has no bit above that width.
fn fits_width(text: &[u8], width: u32) -> bool
    requires hex { AllDigits 16 text.now }
    requires count { length text.now ≡ digits_at width }
    ensures { IsTrue result ↔ digits_value 16 text.now < 2 ^ width }
{
    if width == 0 {
        return true;
    }
    fits(u128::from(number_of_digit(text[0])), (width - 1) % 4 + 1)
}

// Puts the lowest bits of a digit first, as many as the count.
fn put_few(bits: &mut [bool], digit: u8, count: usize)
    requires few { count ≤ 4 }
    requires enough { count ≤ length bits.old }
    ensures { take count bits.new ≡ bits_of count digit }
{
    for i in 0..count {
        bits[i] = bit_at(u128::from(digit), (count - 1 - i) as u32);
    }
}

// Puts the four bits of a digit from this place on.
fn put_digit(bits: &mut [bool], at: usize, digit: u8)
    requires { at + 4 ≤ length bits.old }
    ensures { take (at + 4) bits.new ≡ take at bits.old ++ bits_of 4 digit }
{
    bits[at] = digit / 8 % 2 == 1;
    bits[at + 1] = digit / 4 % 2 == 1;
    bits[at + 2] = digit / 2 % 2 == 1;
    bits[at + 3] = digit % 2 == 1;
}

// Puts the bits of a hexadecimal text in place of as many others.
fn put_text(bits: &mut [bool], text: &[u8])
    requires hex { AllDigits 16 text.now }
    requires count { length text.now ≡ digits_at (length bits.old) }
    ensures { bits.new ≡ bits_of (length bits.old) (digits_value 16 text.now) }
{
    if bits.is_empty() {
        return;
    }
    let few = (bits.len() - 1) % 4 + 1;
    put_few(bits, number_of_digit(text[0]), few);
    for i in 1..text.len() {
        put_digit(bits, few + 4 * (i - 1), number_of_digit(text[i]));
    }
}

impl Bits {
    /// The bits of this width that a hexadecimal text means, in digits of either case, as many as `hex` would write.
    ///
    /// `NotHex` comes where a byte isn't a hexadecimal digit; else `Width` where there are more digits than the width takes or
    /// fewer, or a bit above the width is set.
    pub fn of_hex(alloc: Global, width: u32, text: &[u8]) -> Result<Bits, Or<HexFault>>
        ensures digits { IfOk result (λ _. AllDigits 16 text.now × HasWidth width text.now) }
        ensures bits { IfOk result (λ b. b ≡ bits_of width (digits_value 16 text.now)) }
        ensures fault { IfFault result (IsFaultOf width text.now) }
        ensures memory { OnMemory result (AllDigits 16 text.now × HasWidth width text.now) }
    {
        if !is_hex(text) {
            return Err(Or::Fault(HexFault::NotHex));
        }
        if text.len() != digit_count(width) as usize || !fits_width(text, width) {
            return Err(Or::Fault(HexFault::Width));
        }
        let mut bits = vec![in alloc; false; width as usize]?;
        put_text(&mut bits, text);
        Ok(Bits { bits })
    }
}
