//! What a cell makes of narrow words.
ghost use Rattle.std.specs.Prelude.{◌≡◌, ℕ, ◌<◌, ◌≤◌, length, map, flat_map, IfNone, IfSome, slice_index_or};
ghost use Rattle.std.specs.List.{AllByRecursion};
ghost use Rattle.chw_bits.specs.Bits.{cut_of, number_of};
ghost use Rattle.net_sim.specs.Operands.{IsArithmetic, IsNumberOf, IsOfWide, IsWide, Suit};
ghost use Rattle.net_sim.specs.Tables.{given_in, value_in, values_in};
ghost use Rattle.netlist.specs.Operators.{operator1, operator2};
ghost use Rattle.netlist.specs.Sound.{FitsCell, IsWire};

use crate::narrow::{made_of_one, made_of_two};
use crate::reading::number_of_list;
use crate::word::{NARROW, Word};
use crate::words::{chosen, word_at};
use chw_base::WireId;
use chw_bits::machine;
use netlist::{Cell, Op1, Op2};

// The number of bits of a list, if they are few.
fn number_of_bits(bits: &[bool]) -> Option<u128>
    ensures { IfSome result (IsNumberOf bits.now) }
{
    if bits.len() > NARROW as usize {
        return None;
    }
    Some(number_of_list(bits))
}

// The number of a wire.
fn number_at(words: &[Word], w: WireId) -> Option<u128>
    requires { IsWire (map length words.now) w }
    ensures { IfSome result (IsNumberOf (value_in words.now w.number)) }
{
    let word = word_at(words, w);
    if word.len() > NARROW {
        return None;
    }
    Some(word.number())
}

// The number of wires side by side.
fn joined(words: &[Word], parts: &[WireId]) -> Option<u128>
    requires { AllByRecursion (IsWire (map length words.now)) parts.now }
    ensures { IfSome result
        (IsNumberOf (flat_map (λ bits. bits) (values_in words.now parts.now))) }
{
    let mut n: u128 = 0;
    let mut width: u32 = 0;
    for part in parts {
        let word = word_at(words, *part);
        let more = word.len();
        if more > NARROW - width {
            return None;
        }
        n = machine::joined(n, word.number(), more);
        width += more;
    }
    Some(n)
}

// The number of a part of a wire.
fn cut(words: &[Word], w: WireId, high: u32, low: u32) -> Option<u128>
    requires wire { IsWire (map length words.now) w }
    requires order { low ≤ high }
    requires within { high < length (value_in words.now w.number) }
    ensures number { IfSome result (IsNumberOf (cut_of high low (value_in words.now w.number))) }
    ensures wide { IfNone result (128 < length (value_in words.now w.number)) }
{
    let word = word_at(words, w);
    if word.len() > NARROW {
        return None;
    }
    Some(machine::middle(word.number(), high, low))
}

// The number of what an operator makes of a wire.
fn made_of_wire(words: &[Word], op: Op1, w: WireId) -> Option<u128>
    requires { IsWire (map length words.now) w }
    ensures number { IfSome result (IsNumberOf (operator1 op (value_in words.now w.number))) }
    ensures wide { IfNone result (128 < length (value_in words.now w.number)) }
{
    let word = word_at(words, w);
    if word.len() > NARROW {
        return None;
    }
    Some(made_of_one(op, word))
}

// The number of what an operator makes of two wires.
fn made_of_wires(words: &[Word], op: Op2, left: WireId, right: WireId) -> Option<u128>
    requires left { IsWire (map length words.now) left }
    requires right { IsWire (map length words.now) right }
    requires suit { Suit op (value_in words.now left.number) (value_in words.now right.number) }
    requires arithmetic { IsArithmetic op → (length (value_in words.now left.number) ≤ 128)
        × (length (value_in words.now right.number) ≤ 128) }
    ensures number { IfSome result (IsNumberOf
        (operator2 op (value_in words.now left.number) (value_in words.now right.number))) }
    ensures wide { IfNone result
        (IsWide op (value_in words.now left.number) (value_in words.now right.number)) }
{
    let first = word_at(words, left);
    let second = word_at(words, right);
    if first.len() > NARROW || second.len() > NARROW {
        return None;
    }
    Some(made_of_two(op, first, second))
}

/// The number of what a cell makes, if all that it reads is narrow.
pub(crate) fn made_number(words: &[Word], cell: &Cell) -> Option<u128>
    requires { (domains : ℕ) × FitsCell domains (map length words.now) cell.now }
    ensures number { IfSome result (IsNumberOf (given_in words.now cell.now)) }
    ensures wide { IfNone result (IsOfWide words.now cell.now) }
{
    match cell {
        Cell::Const(_, bits) => number_of_bits(bits.as_slice()),
        Cell::Copy(_, a) => number_at(words, *a),
        Cell::Join(_, parts) => joined(words, parts.as_slice()),
        Cell::Cut(_, a, high, low) => cut(words, *a, *high, *low),
        Cell::Un(_, op, a) => made_of_wire(words, *op, *a),
        Cell::Bin(_, op, a, b) => made_of_wires(words, *op, *a, *b),
        Cell::Mux(_, on, a, b) => number_at(words, chosen(words, *on, *a, *b)),
        Cell::Reg(_, _, _, _) | Cell::Ram(_, _, _, _) | Cell::Use(_, _, _) => None,
    }
}
