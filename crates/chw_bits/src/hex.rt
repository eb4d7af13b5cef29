//! Hexadecimal text of bits.
ghost use Rattle.std.specs.Prelude.{◌≡◌, ◌<◌, ◌≤◌, ◌*◌, ◌%◌, ◌/◌, ◌^◌, ◌+◌, ◌++◌, length};
ghost use Rattle.std.specs.Prelude.{IfOk, IsOk, OnOk, OnErr, vec_len, vec_capacity};
ghost use Rattle.chw_bits.specs.Bits.{number_of};
ghost use Rattle.chw_bits.specs.Hex.{hex_digit, hex_digits, digits_at};

use crate::bits::Bits;
use chw_base::{Name, NoMemory};
use std::alloc::Global;

/// The lower-case hexadecimal digit of a number below 16.
fn digit_of(n: u8) -> u8
    requires { n < 16 }
    ensures { result ≡ hex_digit n }
{
    if n < 10 { b'0' + n } else { b'a' - 10 + n }
}

/// How many hexadecimal digits a width takes.
pub fn digit_count(width: u32) -> u32
    ensures { result ≡ digits_at width }
{
    width.div_ceil(4)
}

/// The number of at most four bits.
fn nibble(bits: &[bool]) -> u8
    requires { length bits.now ≤ 4 }
    ensures number { result ≡ number_of bits.now }
    ensures small { result < 16 }
{
    let mut n: u8 = 0;
    for bit in bits {
        n = 2 * n + u8::from(*bit);
    }
    n
}

/// The hexadecimal digit of this place, the least significant place 0.
fn digit_at(bits: &[bool], place: u32) -> u8
    requires fits { length bits.now < 2 ^ 32 }
    requires within { place < digits_at (length bits.now) }
    ensures { result ≡ hex_digit (number_of bits.now / 16 ^ place % 16) }
{
    let end = bits.len() - 4 * place as usize;
    let from = end.saturating_sub(4);
    digit_of(nibble(&bits[from..end]))
}

/// Appends the digits of a number of bits to a text that has room for them.
fn put_digits(bits: &[bool], count: u32, into: &mut Vec<u8>)
    requires fits { length bits.now < 2 ^ 32 }
    requires all { count ≡ digits_at (length bits.now) }
    requires room { vec_len into.old + count ≤ vec_capacity into.old }
    ensures { into.new.items ≡ into.old.items ++ hex_digits bits.now }
{
    for i in 0..count {
        match into.push(digit_at(bits, count - 1 - i)) {
            Ok(()) => {}
            Err(_) => unreachable!(),
        }
    }
}

impl Bits {
    /// Appends the lower-case hexadecimal digits of the bits' number, as many as their length takes.
    ///
    /// `NoMemory` comes where the text has no room for them and can't grow, and leaves it as it was.
    pub fn put_hex(&self, into: &mut Vec<u8>) -> Result<(), NoMemory>
        ensures digits { OnOk result (into.new.items ≡ into.old.items ++ hex_digits self.now) }
        ensures unchanged { OnErr result (into.new.items ≡ into.old.items) }
        ensures room { vec_len into.old + digits_at (length self.now) ≤ vec_capacity into.old →
            IsOk result }
    {
        let count = digit_count(self.len());
        into.reserve(count as usize)?;
        put_digits(self.as_slice(), count, into);
        Ok(())
    }

    /// The lower-case hexadecimal digits of the bits' number, as many as their length takes.
    pub fn hex(&self, alloc: Global) -> Result<Name, NoMemory>
        ensures { IfOk result (λ text. text ≡ hex_digits self.now) }
    {
        let mut text = Vec::new(alloc);
        self.put_hex(&mut text)?;
        Ok(Name::from(text))
    }
}
