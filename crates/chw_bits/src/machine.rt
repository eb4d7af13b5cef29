//! Words of at most 128 bits as numbers of the machine. Nothing here takes memory.
//!
//! A word is the number that its bits mean: `bits_of width n` are the bits of the word `n`.
//! Each contract says what the bits of a result are, by the bits of the words that it was made of.
//! A width is at most 128, and a word is below 2 to its width where a contract says so.
ghost use Rattle.std.specs.Prelude.{◌≡◌, ℕ, ◌+◌, ◌-◌, ◌*◌, ◌/◌, ◌%◌, ◌^◌, ◌<◌, ◌≤◌, ◌==◌, ◌&&◌, ◌||◌, ◌++◌, not};
ghost use Rattle.std.specs.Prelude.{map, count_by, slice_index_or, false, int_lt, pos, ◌+ℤ◌, ◌-ℤ◌, ◌*ℤ◌};
ghost use Rattle.std.specs.Int.{int_div_euclid};
ghost use Rattle.std.specs.List.{list_all, list_any};
ghost use Rattle.chw_bits.specs.Bits.{number_of, bits_of, cut_of};
ghost use Rattle.chw_bits.specs.Bitwise.{bit_by_bit, differ};
ghost use Rattle.chw_bits.specs.Integers.{signed, word_of};

use crate::places::bit_at;

/// A number without the bits from a width up.
pub fn lowest(width: u32, n: u128) -> u128
    ensures number { result ≡ n % 2 ^ width }
    ensures below { result < 2 ^ width }
{
    if width < 128 { n % (1 << width) } else { n }
}

/// The sum of two words at a width.
pub fn sum(width: u32, a: u128, b: u128) -> u128
    requires { width ≤ 128 }
    ensures bits { bits_of width result
        ≡ word_of width (pos (number_of (bits_of width a)) +ℤ pos (number_of (bits_of width b))) }
    ensures below { result < 2 ^ width }
{
    lowest(width, a.wrapping_add(b))
}

/// The difference of two words at a width.
pub fn difference(width: u32, a: u128, b: u128) -> u128
    requires { width ≤ 128 }
    ensures bits { bits_of width result
        ≡ word_of width (pos (number_of (bits_of width a)) -ℤ pos (number_of (bits_of width b))) }
    ensures below { result < 2 ^ width }
{
    lowest(width, a.wrapping_sub(b))
}

/// The product of two words at a width.
pub fn product(width: u32, a: u128, b: u128) -> u128
    requires { width ≤ 128 }
    ensures bits { bits_of width result
        ≡ word_of width (pos (number_of (bits_of width a)) *ℤ pos (number_of (bits_of width b))) }
    ensures below { result < 2 ^ width }
{
    lowest(width, a.wrapping_mul(b))
}

/// A number times 2 to a number of places, modulo 2 to the 128.
fn raised(n: u128, places: u128) -> u128
    ensures { result ≡ n * 2 ^ places % 2 ^ 128 }
{
    if places < 128 { n << places } else { 0 }
}

/// A word moved up by a number of places of any size, with zeros below, at a width.
pub fn up(width: u32, a: u128, places: u128) -> u128
    requires { width ≤ 128 }
    ensures bits { bits_of width result
        ≡ word_of width (pos (number_of (bits_of width a)) *ℤ pos (2 ^ places)) }
    ensures below { result < 2 ^ width }
{
    lowest(width, raised(a, places))
}

/// The quotient of a number by 2 to a number of places.
fn lowered(n: u128, places: u128) -> u128
    ensures { result ≡ n / 2 ^ places }
{
    if places < 128 { n >> places } else { 0 }
}

/// A word moved down by a number of places of any size, with zeros above.
pub fn down(a: u128, places: u128) -> u128
    ensures number { result ≡ a / 2 ^ places }
    ensures bits { (width : ℕ) → a < 2 ^ width → bits_of width result
        ≡ word_of width (int_div_euclid (pos (number_of (bits_of width a))) (pos (2 ^ places))) }
    ensures below { result ≤ a }
{
    lowered(a, places)
}

/// Whether the first bit of a word is set.
fn is_negative(width: u32, a: u128) -> bool
    ensures { result ≡ slice_index_or (bits_of width a) 0 false }
{
    width > 0 && bit_at(a, width - 1)
}

/// The integer of a word in two's complement.
pub fn signed_number(width: u32, a: u128) -> i128
    requires whole { width ≤ 128 }
    requires word { a < 2 ^ width }
    ensures { result ≡ signed (bits_of width a) }
{
    if is_negative(width, a) {
        // The bits above the word are set, so the others are the complement's.
        !(lowest(width, !a) as i128)
    } else {
        a as i128
    }
}

/// The greatest integer that is at most a quotient by 2 to a number of places.
pub fn signed_quotient(n: i128, places: u128) -> i128
    ensures { result ≡ int_div_euclid n (pos (2 ^ places)) }
{
    // From 127 places on only the sign is left.
    n >> places.min(127)
}

/// A word moved down by a number of places of any size, with copies of its first bit above.
pub fn signed_down(width: u32, a: u128, places: u128) -> u128
    requires whole { width ≤ 128 }
    requires word { a < 2 ^ width }
    ensures bits { bits_of width result
        ≡ word_of width (int_div_euclid (signed (bits_of width a)) (pos (2 ^ places))) }
    ensures below { result < 2 ^ width }
{
    let quotient = signed_quotient(signed_number(width, a), places);
    lowest(width, quotient.cast_unsigned())
}

/// Whether a word means a smaller integer than another in two's complement.
pub fn less_signed(width: u32, a: u128, b: u128) -> bool
    requires whole { width ≤ 128 }
    requires left { a < 2 ^ width }
    requires right { b < 2 ^ width }
    ensures { result ≡ int_lt (signed (bits_of width a)) (signed (bits_of width b)) }
{
    signed_number(width, a) < signed_number(width, b)
}

/// The bits that are set in both words.
pub fn both(a: u128, b: u128) -> u128
    ensures bits { (width : ℕ) →
        bits_of width result ≡ bit_by_bit (λ x y. x && y) (bits_of width a) (bits_of width b) }
    ensures below { (width : ℕ) → a < 2 ^ width → b < 2 ^ width → result < 2 ^ width }
{
    a & b
}

/// The bits that are set in one of two words or in both.
pub fn either(a: u128, b: u128) -> u128
    ensures bits { (width : ℕ) →
        bits_of width result ≡ bit_by_bit (λ x y. x || y) (bits_of width a) (bits_of width b) }
    ensures below { (width : ℕ) → a < 2 ^ width → b < 2 ^ width → result < 2 ^ width }
{
    a | b
}

/// The bits that are set in just one of two words.
pub fn differing(a: u128, b: u128) -> u128
    ensures bits { (width : ℕ) →
        bits_of width result ≡ bit_by_bit differ (bits_of width a) (bits_of width b) }
    ensures below { (width : ℕ) → a < 2 ^ width → b < 2 ^ width → result < 2 ^ width }
{
    a ^ b
}

/// The bits of a word that aren't set.
pub fn flipped(width: u32, a: u128) -> u128
    requires { width ≤ 128 }
    ensures bits { bits_of width result ≡ map not (bits_of width a) }
    ensures below { result < 2 ^ width }
{
    lowest(width, !a)
}

/// Whether all bits of a word are set.
pub fn all_set(width: u32, a: u128) -> bool
    requires whole { width ≤ 128 }
    requires word { a < 2 ^ width }
    ensures { result ≡ list_all (λ bit. bit) (bits_of width a) }
{
    a == lowest(width, u128::MAX)
}

/// Whether a bit of a word is set.
pub fn any_set(a: u128) -> bool
    ensures { (width : ℕ) → a < 2 ^ width → result ≡ list_any (λ bit. bit) (bits_of width a) }
{
    a != 0
}

/// Whether the number of bits of a word that are set is odd.
pub fn odd_set(a: u128) -> bool
    ensures { (width : ℕ) → a < 2 ^ width →
        result ≡ (count_by (λ bit. bit) (bits_of width a) % 2 == 1) }
{
    a.count_ones() % 2 == 1
}

/// A word with another of a width after it, the first the most significant.
///
/// Together they have at most 128 bits.
pub fn joined(a: u128, b: u128, width: u32) -> u128
    requires whole { width ≤ 128 }
    requires high { a < 2 ^ (128 - width) }
    requires low { b < 2 ^ width }
    ensures bits { (high : ℕ) →
        bits_of (high + width) result ≡ bits_of high a ++ bits_of width b }
    ensures below { (high : ℕ) → a < 2 ^ high → result < 2 ^ (high + width) }
{
    raised(a, u128::from(width)) + b
}

/// The bits of a word from one place down to another, the least significant place 0.
pub fn middle(a: u128, high: u32, low: u32) -> u128
    requires order { low ≤ high }
    requires whole { high < 128 }
    ensures bits { (width : ℕ) → high < width →
        bits_of (high + 1 - low) result ≡ cut_of high low (bits_of width a) }
    ensures below { result < 2 ^ (high + 1 - low) }
{
    lowest(high - low + 1, lowered(a, u128::from(low)))
}
