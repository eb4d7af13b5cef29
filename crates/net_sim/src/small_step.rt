//! Steps on words of at most 64 bits.
ghost use Rattle.std.specs.Prelude.{◌≡◌, ℕ, ◌<◌, ◌≤◌, ◌^◌, length, map, slice_set};
ghost use Rattle.net_sim.specs.Settling.{Renews};
ghost use Rattle.net_sim.specs.Steps.{IsMaskOf, IsPart, IsSmall, IsTwo};
ghost use Rattle.net_sim.specs.Tables.{value_in};
ghost use Rattle.netlist.specs.Sound.{FitsCell, IsWire};
ghost use Rattle.netlist.specs.declared.net.Cell.TheVariants.{Bin, Cut, Mux, Un};
ghost use Rattle.netlist.specs.declared.net.Op1.TheVariants.{Not};

use crate::small::small_of_two;
use crate::word::Word;
use crate::words::{chosen, put_small_at, word_at};
use chw_base::WireId;
use netlist::Op2;

/// Puts the bits of a wire in place of those of another one of its width.
pub(crate) fn move_small(words: &mut [Word], to: WireId, from: WireId)
    requires to { IsWire (map length words.old) to }
    requires from { IsWire (map length words.old) from }
    requires width { length (value_in words.old to.number)
        ≡ length (value_in words.old from.number) }
    requires small { length (value_in words.old to.number) ≤ 64 }
    ensures word { words.new ≡ slice_set words.old to.number (value_in words.old from.number) }
    ensures widths { map length words.new ≡ map length words.old }
{
    let n = word_at(words, from).small();
    put_small_at(words, to, n);
}

/// Settles the wire of a choice.
pub(crate) fn choose_small(
    words: &mut [Word],
    to: WireId,
    on: WireId,
    first: WireId,
    second: WireId,
)
    requires fits { (domains : ℕ)
        × FitsCell domains (map length words.old) (Mux to on first second) }
    requires small { IsSmall (map length words.old) to }
    ensures { Renews (Mux to on first second) words.old words.new }
{
    let from = chosen(words, on, first, second);
    move_small(words, to, from);
}

/// Settles the wire of an operator on two others.
pub(crate) fn settle_two(
    words: &mut [Word],
    to: WireId,
    op: Op2,
    left: WireId,
    right: WireId,
    mask: u64,
)
    requires fits { (domains : ℕ) × FitsCell domains (map length words.old) (Bin to op left right) }
    requires two { IsTwo (map length words.old) to op left right mask }
    ensures { Renews (Bin to op left right) words.old words.new }
{
    let n = small_of_two(op, mask, word_at(words, left), word_at(words, right));
    put_small_at(words, to, n);
}

/// Settles the wire that has the bits that another hasn't.
pub(crate) fn flip_small(words: &mut [Word], to: WireId, from: WireId, mask: u64)
    requires fits { (domains : ℕ) × FitsCell domains (map length words.old) (Un to Not from) }
    requires small { IsSmall (map length words.old) to }
    requires mask { IsMaskOf (map length words.old) to mask }
    ensures { Renews (Un to Not from) words.old words.new }
{
    let n = mask - word_at(words, from).small();
    put_small_at(words, to, n);
}

/// Settles the wire of a part of another.
pub(crate) fn part_small(words: &mut [Word], to: WireId, from: WireId, low: u32, mask: u64)
    requires fits { (high domains : ℕ)
        × FitsCell domains (map length words.old) (Cut to from high low)
        × IsPart (map length words.old) to from high low mask }
    ensures { (high domains : ℕ) → FitsCell domains (map length words.old) (Cut to from high low)
        → IsPart (map length words.old) to from high low mask
        → Renews (Cut to from high low) words.old words.new }
{
    let n = (word_at(words, from).small() >> low) & mask;
    put_small_at(words, to, n);
}
