//! What a cell makes of wide words.
ghost use Rattle.std.specs.Prelude.{◌≡◌, ℕ, ◌+◌, ◌*◌, ◌<◌, ◌≤◌, length, map, flat_map, slice_index_or};
ghost use Rattle.std.specs.List.{AllByRecursion};
ghost use Rattle.chw_bits.specs.Bits.{cut_of};
ghost use Rattle.net_sim.specs.Operands.{IsOfWide, IsWide, Suit};
ghost use Rattle.net_sim.specs.Parts.{HasBits};
ghost use Rattle.net_sim.specs.Tables.{given_in, value_in, values_in};
ghost use Rattle.netlist.specs.Operators.{operator1, operator2};
ghost use Rattle.netlist.specs.Sound.{FitsCell, IsWire, IsWireWidth, width_of_all};

use crate::room::{Part, lay, lay_list, lay_word};
use crate::wide::{bits_of_one, bits_of_two};
use crate::word::Word;
use crate::words::{chosen, word_at};
use chw_base::WireId;
use netlist::{Cell, Op2};

// The bits of wires side by side.
fn joined(words: &[Word], parts: &[WireId], room: &mut [bool]) -> Part
    requires wires { AllByRecursion (IsWire (map length words.now)) parts.now }
    requires enough { width_of_all (map length words.now) parts.now ≤ length room.old }
    ensures { HasBits result room.new (flat_map (λ bits. bits) (values_in words.now parts.now)) }
{
    let mut count: usize = 0;
    for part in parts {
        let word = word_at(words, *part);
        lay(word, room, count);
        count += word.len() as usize;
    }
    Part { from: 0, count }
}

// A part of a wide wire.
fn cut(words: &[Word], w: WireId, high: u32, low: u32, room: &mut [bool]) -> Part
    requires wire { IsWire (map length words.now) w }
    requires wide { 128 < length (value_in words.now w.number) }
    requires order { low ≤ high }
    requires within { high < length (value_in words.now w.number) }
    requires enough { length (value_in words.now w.number) ≤ length room.old }
    ensures { HasBits result room.new (cut_of high low (value_in words.now w.number)) }
{
    let bits = word_at(words, w).list();
    let from = bits.len() - 1 - high as usize;
    let to = bits.len() - low as usize;
    lay_list(&bits[from..to], room)
}

// What an operator makes of two wires, unless it is a sum, a difference or a product.
fn made_of_wires(words: &[Word], op: Op2, left: WireId, right: WireId, room: &mut [bool]) -> Part
    requires left { IsWire (map length words.now) left }
    requires right { IsWire (map length words.now) right }
    requires wide { IsWide op (value_in words.now left.number) (value_in words.now right.number) }
    requires suit { Suit op (value_in words.now left.number) (value_in words.now right.number) }
    requires some { 0 < length (value_in words.now left.number) }
    requires enough { 2 * length (value_in words.now left.number) ≤ length room.old }
    ensures { HasBits result room.new
        (operator2 op (value_in words.now left.number) (value_in words.now right.number)) }
{
    bits_of_two(op, word_at(words, left), word_at(words, right), room)
}

/// What a cell makes of wide words, unless it is a sum, a difference or a product.
pub(crate) fn made_bits(words: &[Word], cell: &Cell, room: &mut [bool]) -> Part
    requires fits { (domains : ℕ) × FitsCell domains (map length words.now) cell.now }
    requires widths { AllByRecursion IsWireWidth (map length words.now) }
    requires wide { IsOfWide words.now cell.now }
    requires enough { length room.old ≡ 8192 }
    ensures { HasBits result room.new (given_in words.now cell.now) }
{
    match cell {
        Cell::Const(_, bits) => lay_list(bits.as_slice(), room),
        Cell::Copy(_, a) => lay_word(word_at(words, *a), room),
        Cell::Join(_, parts) => joined(words, parts.as_slice(), room),
        Cell::Cut(_, a, high, low) => cut(words, *a, *high, *low, room),
        Cell::Un(_, op, a) => bits_of_one(*op, word_at(words, *a).list(), room),
        Cell::Bin(_, op, a, b) => made_of_wires(words, *op, *a, *b, room),
        Cell::Mux(_, on, a, b) => lay_word(word_at(words, chosen(words, *on, *a, *b)), room),
        Cell::Reg(_, _, _, _) | Cell::Ram(_, _, _, _) | Cell::Use(_, _, _) => {
            Part { from: 0, count: 0 }
        }
    }
}
