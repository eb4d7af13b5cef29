//! Words by the wires that they are of.
ghost use Rattle.std.specs.Prelude.{◌≡◌, ◌==◌, ◌<◌, ◌≤◌, ◌^◌, length, map, [], slice_index_or};
ghost use Rattle.std.specs.Prelude.{slice_set, if◌then◌else◌, IfOk};
ghost use Rattle.chw_bits.specs.Bits.{bits_of, number_of};
ghost use Rattle.net_sim.specs.Tables.{value_in};
ghost use Rattle.netlist.specs.Sound.{HasWidth, IsWire};

use crate::memory::Memory;
use crate::word::{Word, no_bits};
use chw_base::{NoMemory, WireId};
use chw_bits::Bits;
use std::alloc::Global;

/// The word of a wire.
pub(crate) fn word_at(words: &[Word], w: WireId) -> &Word
    requires { IsWire (map length words.now) w }
    ensures { result.now ≡ value_in words.now w.number }
{
    &words[w.number as usize]
}

/// The bits of a wire, once more.
pub(crate) fn bits_at(alloc: Global, words: &[Word], w: WireId) -> Result<Bits, NoMemory>
    requires { IsWire (map length words.now) w }
    ensures { IfOk result (λ bits. bits ≡ value_in words.now w.number) }
{
    let word = word_at(words, w);
    let mut bits = Bits::of_list(no_bits(alloc, word.len() as usize)?);
    word.put_into(&mut bits);
    Ok(bits)
}

/// The wire that a choice takes: the first where the condition is 1, else the second.
pub(crate) fn chosen(words: &[Word], on: WireId, first: WireId, second: WireId) -> WireId
    requires on { HasWidth (map length words.now) on 1 }
    requires first { IsWire (map length words.now) first }
    requires second { IsWire (map length words.now) second }
    ensures wire { IsWire (map length words.now) result }
    ensures value { value_in words.now result.number
        ≡ (if number_of (value_in words.now on.number) == 1 then value_in words.now first.number
        else value_in words.now second.number) }
{
    if word_at(words, on).small() == 1 {
        first
    } else {
        second
    }
}

/// The memory of a wire.
pub(crate) fn memory_at(memories: &[Memory], w: WireId) -> &Memory
    requires { w.number < length memories.now }
    ensures { result.now ≡ slice_index_or memories.now w.number [] }
{
    &memories[w.number as usize]
}

/// Makes the narrow word of a wire the one of a number.
pub(crate) fn put_number_at(words: &mut [Word], w: WireId, n: u128)
    requires wire { IsWire (map length words.old) w }
    requires narrow { length (value_in words.old w.number) ≤ 128 }
    requires below { n < 2 ^ length (value_in words.old w.number) }
    ensures word { words.new
        ≡ slice_set words.old w.number (bits_of (length (value_in words.old w.number)) n) }
    ensures widths { map length words.new ≡ map length words.old }
{
    words[w.number as usize].put_number(n);
}

/// Makes the small word of a wire the one of a number.
pub(crate) fn put_small_at(words: &mut [Word], w: WireId, n: u64)
    requires wire { IsWire (map length words.old) w }
    requires small { length (value_in words.old w.number) ≤ 64 }
    requires below { n < 2 ^ length (value_in words.old w.number) }
    ensures word { words.new
        ≡ slice_set words.old w.number (bits_of (length (value_in words.old w.number)) n) }
    ensures widths { map length words.new ≡ map length words.old }
{
    words[w.number as usize].put_small(n);
}

/// Puts these bits in place of those of a wire.
pub(crate) fn put_bits_at(words: &mut [Word], w: WireId, bits: &[bool])
    requires wire { IsWire (map length words.old) w }
    requires width { length bits.now ≡ length (value_in words.old w.number) }
    ensures word { words.new ≡ slice_set words.old w.number bits.now }
    ensures widths { map length words.new ≡ map length words.old }
{
    words[w.number as usize].put_bits(bits);
}

/// Puts the bits of a word in place of those of a wire.
pub(crate) fn put_word_at(words: &mut [Word], w: WireId, word: &Word)
    requires wire { IsWire (map length words.old) w }
    requires width { length word.now ≡ length (value_in words.old w.number) }
    ensures word { words.new ≡ slice_set words.old w.number word.now }
    ensures widths { map length words.new ≡ map length words.old }
{
    words[w.number as usize].copy_from(word);
}

/// Sets no bit of a wire.
pub(crate) fn clear_at(words: &mut [Word], w: WireId)
    requires { IsWire (map length words.old) w }
    ensures word { words.new
        ≡ slice_set words.old w.number (bits_of (length (value_in words.old w.number)) 0) }
    ensures widths { map length words.new ≡ map length words.old }
{
    words[w.number as usize].clear();
}
