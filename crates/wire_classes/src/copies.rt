//! Wires that copy others.
ghost use Rattle.std.specs.Prelude.{◌≡◌, ◌<◌, ◌≤◌, ◌==◌, length, IfNone, IfSome};
ghost use Rattle.chw_bits.specs.Bits.{number_of};
ghost use Rattle.netlist.specs.NetValue.{HasCell};
ghost use Rattle.wire_classes.specs.Closed.{AreFound, CopiesHold, CopyHoldsAt, bits_in};
ghost use Rattle.wire_classes.specs.Closed.{choice_of, copied_by, only_of, whole_of};
ghost use Rattle.wire_classes.specs.Steps.{IsStep};

use crate::labels::{cell_at, label, mark, wire_at};
use crate::steps::Step;
use chw_base::WireId;
use chw_bits::Bits;
use netlist::{Cell, Flat};

// The wire, where it is alone.
fn only_of(wires: &[WireId]) -> Option<WireId>
    ensures { result ≡ only_of wires.now }
{
    if wires.len() != 1 {
        return None;
    }
    Some(wires[0])
}

// The wire from which these bits are cut, where they are all of it.
fn whole_of(widths: &[u32], a: WireId, high: u32, low: u32) -> Option<WireId>
    ensures { result ≡ whole_of widths.now a high low }
{
    let width = label(widths, a.number as usize);
    if low == 0 && u64::from(width) == u64::from(high) + 1 {
        Some(a)
    } else {
        None
    }
}

// Whether the bits are those of the number 1.
fn are_one(bits: &Bits) -> bool
    requires { length bits.now ≤ 128 }
    ensures { result ≡ (number_of bits.now == 1) }
{
    match bits.number() {
        Some(number) => number == 1,
        None => false,
    }
}

// Whether the bits of a wire are those of the number 1.
fn is_one(values: &[Bits], w: WireId) -> bool
    requires within { w.number < length values.now }
    requires narrow { length (bits_in values.now w.number) ≤ 128 }
    ensures { result ≡ (number_of (bits_in values.now w.number) == 1) }
{
    are_one(&values[w.number as usize])
}

// The wire that a choice takes, where that is known.
fn choice_of(
    of: &[u32],
    known: &[bool],
    values: &[Bits],
    c: WireId,
    a: WireId,
    b: WireId,
) -> Option<WireId>
    requires within { c.number < length values.now }
    requires narrow { length (bits_in values.now c.number) ≤ 128 }
    ensures { result ≡ choice_of of.now known.now values.now c a b }
{
    if label(of, a.number as usize) == label(of, b.number as usize) {
        return Some(a);
    }
    if !mark(known, c.number) {
        return None;
    }
    if is_one(values, c) { Some(a) } else { Some(b) }
}

/// The wire that a cell copies, by labels and marks.
pub(crate) fn copied_by(
    flat: &Flat,
    of: &[u32],
    known: &[bool],
    values: &[Bits],
    cell: &Cell,
) -> Option<WireId>
    requires found { AreFound flat.now of.now known.now values.now }
    requires has { HasCell flat.now cell.now }
    ensures { result ≡ copied_by flat.now.widths of.now known.now values.now cell.now }
{
    match cell {
        Cell::Copy(_, a) => Some(*a),
        Cell::Join(_, parts) => only_of(parts.as_slice()),
        Cell::Cut(_, a, high, low) => whole_of(flat.widths.as_slice(), *a, *high, *low),
        Cell::Mux(_, c, a, b) => choice_of(of, known, values, *c, *a, *b),
        _ => None,
    }
}

// The step that the cell at this place leaves as a copy.
fn copy_step(flat: &Flat, of: &[u32], known: &[bool], values: &[Bits], place: u32) -> Option<Step>
    requires found { AreFound flat.now of.now known.now values.now }
    requires within { place < length flat.now.cells }
    ensures none { IfNone result (CopyHoldsAt flat.now of.now known.now values.now place) }
    ensures some { IfSome result (IsStep flat.now of.now known.now) }
{
    let w = wire_at(flat, place);
    let cell = cell_at(flat, place);
    let Some(a) = copied_by(flat, of, known, values, cell) else {
        return None;
    };
    if label(of, w as usize) == label(of, a.number as usize) {
        return None;
    }
    Some(Step::Merge(w, a.number))
}

/// A step that cells leave as copies.
pub(crate) fn copies_step(flat: &Flat, of: &[u32], known: &[bool], values: &[Bits]) -> Option<Step>
    requires { AreFound flat.now of.now known.now values.now }
    ensures none { IfNone result (CopiesHold flat.now of.now known.now values.now) }
    ensures some { IfSome result (IsStep flat.now of.now known.now) }
{
    for place in 0..flat.cells.len() as u32 {
        if let Some(step) = copy_step(flat, of, known, values, place) {
            return Some(step);
        }
    }
    None
}
