//! The operators on wide words, bit by bit.
ghost use Rattle.std.specs.Prelude.{◌≡◌, ◌+◌, ◌<◌, ◌≤◌, ◌++◌, ◌==◌, nat_lt, int_lt, length, take, drop, map, min, not, count_by, ◌%◌, ◌*◌, replicate, false};
ghost use Rattle.std.specs.List.{list_all, list_any};
ghost use Rattle.chw_bits.specs.Bits.{number_of};
ghost use Rattle.chw_bits.specs.Bitwise.{bit_by_bit};
ghost use Rattle.chw_bits.specs.Integers.{signed};
ghost use Rattle.net_sim.specs.Operands.{IsWide, Suit, bit_of_two};
ghost use Rattle.net_sim.specs.Parts.{HasBits};
ghost use Rattle.netlist.specs.Operators.{operator1, operator2};
ghost use Rattle.netlist.specs.declared.net.Op2.TheVariants.{Shl, Shr, Sar};

use crate::room::{Part, fill, lay, lay_list};
use crate::word::{NARROW, Word};
use netlist::{Op1, Op2};

// Whether all of these bits are set.
fn are_all_set(bits: &[bool]) -> bool
    ensures { result ≡ list_all (λ bit. bit) bits.now }
{
    bits.iter().all(|bit| *bit)
}

// Whether any of these bits is set.
fn is_any_set(bits: &[bool]) -> bool
    ensures { result ≡ list_any (λ bit. bit) bits.now }
{
    bits.iter().any(|bit| *bit)
}

// Whether an odd count of these bits is set.
fn is_odd_set(bits: &[bool]) -> bool
    ensures { result ≡ (count_by (λ bit. bit) bits.now % 2 == 1) }
{
    let mut odd = false;
    for bit in bits {
        odd = odd != *bit;
    }
    odd
}

// These bits turned round.
fn turned(bits: &[bool], room: &mut [bool]) -> Part
    requires { length bits.now ≤ length room.old }
    ensures { HasBits result room.new (map not bits.now) }
{
    for i in 0..bits.len() {
        room[i] = !bits[i];
    }
    Part {
        from: 0,
        count: bits.len(),
    }
}

/// What an operator makes of a word of these bits.
pub(crate) fn bits_of_one(op: Op1, bits: &[bool], room: &mut [bool]) -> Part
    requires some { 0 < length room.old }
    requires enough { length bits.now ≤ length room.old }
    ensures { HasBits result room.new (operator1 op bits.now) }
{
    match op {
        Op1::Not => turned(bits, room),
        Op1::RedAnd => lay_list(&[are_all_set(bits)], room),
        Op1::RedOr => lay_list(&[is_any_set(bits)], room),
        Op1::RedXor => lay_list(&[is_odd_set(bits)], room),
    }
}

// What an operator makes of two bits.
fn made_of_bits(op: Op2, left: bool, right: bool) -> bool
    ensures { result ≡ bit_of_two op left right }
{
    match op {
        Op2::And => left && right,
        Op2::Or => left || right,
        Op2::Xor => left != right,
        _ => false,
    }
}

/// What an operator makes of two words of these bits, bit by bit.
pub(crate) fn bitwise(op: Op2, left: &[bool], right: &[bool], room: &mut [bool]) -> Part
    requires same { length left.now ≡ length right.now }
    requires enough { length left.now ≤ length room.old }
    ensures { HasBits result room.new (bit_by_bit (bit_of_two op) left.now right.now) }
{
    for i in 0..left.len() {
        room[i] = made_of_bits(op, left[i], right[i]);
    }
    Part {
        from: 0,
        count: left.len(),
    }
}

// A word moved up by a number of places, with zeros below.
fn moved_up(word: &Word, places: u32, room: &mut [bool]) -> Part
    requires { places + length word.now ≤ length room.old }
    ensures { HasBits result room.new
        (take (length word.now) (drop places (word.now ++ replicate places false))) }
{
    let count = word.len() as usize;
    lay(word, room, 0);
    fill(room, count, places as usize, false);
    Part {
        from: places as usize,
        count,
    }
}

// A word moved down by a number of places, with a bit above so many times.
fn moved_down(word: &Word, places: u32, above: bool, room: &mut [bool]) -> Part
    requires { places + length word.now ≤ length room.old }
    ensures { HasBits result room.new
        (take (length word.now) (replicate places above ++ word.now)) }
{
    fill(room, 0, places as usize, above);
    lay(word, room, places as usize);
    Part {
        from: 0,
        count: word.len() as usize,
    }
}

/// Whether two words of these bits mean one number.
pub(crate) fn are_equal(left: &[bool], right: &[bool]) -> bool
    requires { length left.now ≡ length right.now }
    ensures { result ≡ (number_of left.now == number_of right.now) }
{
    for i in 0..left.len() {
        if left[i] != right[i] {
            return false;
        }
    }
    true
}

/// Whether the bits of a word from a place on mean a smaller number than those of another.
pub(crate) fn is_less(left: &[bool], right: &[bool], from: usize) -> bool
    requires same { length left.now ≡ length right.now }
    requires within { from ≤ length left.now }
    ensures { result ≡ nat_lt (number_of (drop from left.now)) (number_of (drop from right.now)) }
{
    for i in from..left.len() {
        if left[i] != right[i] {
            return right[i];
        }
    }
    false
}

/// Whether a word means a smaller integer than another in two's complement.
pub(crate) fn is_less_signed(left: &[bool], right: &[bool]) -> bool
    requires same { length left.now ≡ length right.now }
    requires some { 0 < length left.now }
    ensures { result ≡ int_lt (signed left.now) (signed right.now) }
{
    let sign = left[0];
    if sign == right[0] {
        is_less(left, right, 1)
    } else {
        sign
    }
}

// The number of these bits, or the most that is of interest.
fn amount_of_bits(bits: &[bool], most: u32) -> u32
    ensures { result ≡ min (number_of bits.now) most }
{
    let most = u64::from(most);
    let mut n: u64 = 0;
    for bit in bits {
        n = (2 * n + u64::from(*bit)).min(most);
    }
    n as u32
}

/// The number of a word, or the most that is of interest.
pub(crate) fn amount(word: &Word, most: u32) -> u32
    ensures { result ≡ min (number_of word.now) most }
{
    if word.len() > NARROW {
        amount_of_bits(word.list(), most)
    } else {
        word.number().min(u128::from(most)) as u32
    }
}

// A word moved up by the number of another.
fn shifted_up(left: &Word, right: &Word, room: &mut [bool]) -> Part
    requires { 2 * length left.now ≤ length room.old }
    ensures { HasBits result room.new (operator2 Shl left.now right.now) }
{
    moved_up(left, amount(right, left.len()), room)
}

// A word moved down by the number of another, with zeros above.
fn shifted_down(left: &Word, right: &Word, room: &mut [bool]) -> Part
    requires { 2 * length left.now ≤ length room.old }
    ensures { HasBits result room.new (operator2 Shr left.now right.now) }
{
    moved_down(left, amount(right, left.len()), false, room)
}

// A word moved down by the number of another, with its sign above.
fn shifted_down_signed(left: &Word, right: &Word, room: &mut [bool]) -> Part
    requires some { 0 < length left.now }
    requires enough { 2 * length left.now ≤ length room.old }
    ensures { HasBits result room.new (operator2 Sar left.now right.now) }
{
    moved_down(left, amount(right, left.len()), left.bit(0), room)
}

/// What an operator makes of two words, unless it is a sum, a difference or a product.
pub(crate) fn bits_of_two(op: Op2, left: &Word, right: &Word, room: &mut [bool]) -> Part
    requires wide { IsWide op left.now right.now }
    requires suit { Suit op left.now right.now }
    requires some { 0 < length left.now }
    requires enough { 2 * length left.now ≤ length room.old }
    ensures { HasBits result room.new (operator2 op left.now right.now) }
{
    match op {
        Op2::Add | Op2::Sub | Op2::Mul => Part { from: 0, count: 0 },
        Op2::And | Op2::Or | Op2::Xor => bitwise(op, left.list(), right.list(), room),
        Op2::Eq => lay_list(&[are_equal(left.list(), right.list())], room),
        Op2::LtU => lay_list(&[is_less(left.list(), right.list(), 0)], room),
        Op2::LtS => lay_list(&[is_less_signed(left.list(), right.list())], room),
        Op2::Shl => shifted_up(left, right, room),
        Op2::Shr => shifted_down(left, right, room),
        Op2::Sar => shifted_down_signed(left, right, room),
    }
}
