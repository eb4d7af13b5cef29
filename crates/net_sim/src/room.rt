//! Room for the bits of wide words, in which they are made before they are put.
ghost use Rattle.std.specs.Prelude.{◌≡◌, ◌+◌, ◌<◌, ◌≤◌, ◌++◌, length, take, replicate};
ghost use Rattle.chw_bits.specs.Bits.{bits_of};
ghost use Rattle.net_sim.specs.Parts.{HasBits};

use crate::reading::bit_at;
use crate::word::{NARROW, Word};

/// How many bits there is room for: two of the widest words.
pub(crate) const ROOM: usize = 8192;

/// A part of the room.
#[derive(Clone, Copy, Debug)]
pub(crate) struct Part {
    pub from: usize,
    pub count: usize,
}

// Writes the bits of a number of this width from this place on.
fn lay_number(width: u32, n: u128, room: &mut [bool], at: usize)
    requires narrow { width ≤ 128 }
    requires enough { at + width ≤ length room.old }
    ensures { take (at + width) room.new ≡ take at room.old ++ bits_of width n }
{
    for i in 0..width {
        room[at + i as usize] = bit_at(width, n, i);
    }
}

/// Writes a word from this place on.
pub(crate) fn lay(word: &Word, room: &mut [bool], at: usize)
    requires { at + length word.now ≤ length room.old }
    ensures { take (at + length word.now) room.new ≡ take at room.old ++ word.now }
{
    let count = word.len();
    if count > NARROW {
        room[at..at + count as usize].copy_from_slice(word.list());
    } else {
        lay_number(count, word.number(), room, at);
    }
}

/// Writes bits at the beginning.
pub(crate) fn lay_list(bits: &[bool], room: &mut [bool]) -> Part
    requires { length bits.now ≤ length room.old }
    ensures { HasBits result room.new bits.now }
{
    let count = bits.len();
    room[..count].copy_from_slice(bits);
    Part { from: 0, count }
}

/// Writes a word at the beginning.
pub(crate) fn lay_word(word: &Word, room: &mut [bool]) -> Part
    requires { length word.now ≤ length room.old }
    ensures bits { HasBits result room.new word.now }
    ensures start { result.from ≡ 0 }
    ensures count { result.count ≡ length word.now }
{
    lay(word, room, 0);
    Part {
        from: 0,
        count: word.len() as usize,
    }
}

/// Writes so many equal bits from this place on.
pub(crate) fn fill(room: &mut [bool], at: usize, count: usize, bit: bool)
    requires { at + count ≤ length room.old }
    ensures { take (at + count) room.new ≡ take at room.old ++ replicate count bit }
{
    for i in 0..count {
        room[at + i] = bit;
    }
}
