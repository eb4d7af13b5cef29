//! Wires of which bits are known.
ghost use Rattle.std.specs.Prelude.{◌≡◌, ◌<◌, length, IfNone, IfSome};
ghost use Rattle.wire_classes.specs.Closed.{AreFound, LabelHoldsAt, LabelsHold, MarkHoldsAt};
ghost use Rattle.wire_classes.specs.Closed.{MarksHold, all_marked, gives_known};
ghost use Rattle.wire_classes.specs.Steps.{IsStep};

use crate::labels::{cell_at, label, mark, wire_at};
use crate::steps::Step;
use chw_base::WireId;
use chw_bits::Bits;
use netlist::{Cell, Flat};

// Whether all wires are marked.
fn all_marked(known: &[bool], wires: &[WireId]) -> bool
    ensures { result ≡ all_marked known.now wires.now }
{
    wires.iter().all(|w| mark(known, w.number))
}

/// Whether a cell is a constant, or gives one since all that it reads is marked.
pub(crate) fn gives_known(known: &[bool], cell: &Cell) -> bool
    ensures { result ≡ gives_known known.now cell.now }
{
    match cell {
        Cell::Const(_, _) => true,
        Cell::Join(_, parts) => all_marked(known, parts.as_slice()),
        Cell::Cut(_, a, _, _) => mark(known, a.number),
        Cell::Un(_, _, a) => mark(known, a.number),
        Cell::Bin(_, _, a, b) => mark(known, a.number) && mark(known, b.number),
        _ => false,
    }
}

// The step that the cell at this place leaves as a constant.
fn mark_step(flat: &Flat, of: &[u32], known: &[bool], values: &[Bits], place: u32) -> Option<Step>
    requires found { AreFound flat.now of.now known.now values.now }
    requires within { place < length flat.now.cells }
    ensures none { IfNone result (MarkHoldsAt flat.now known.now place) }
    ensures some { IfSome result (IsStep flat.now of.now known.now) }
{
    let w = wire_at(flat, place);
    if mark(known, w) {
        return None;
    }
    if !gives_known(known, cell_at(flat, place)) {
        return None;
    }
    Some(Step::Mark(w))
}

/// A step that cells leave as constants.
pub(crate) fn marks_step(flat: &Flat, of: &[u32], known: &[bool], values: &[Bits]) -> Option<Step>
    requires { AreFound flat.now of.now known.now values.now }
    ensures none { IfNone result (MarksHold flat.now known.now) }
    ensures some { IfSome result (IsStep flat.now of.now known.now) }
{
    for place in 0..flat.cells.len() as u32 {
        if let Some(step) = mark_step(flat, of, known, values, place) {
            return Some(step);
        }
    }
    None
}

// The step that the label of a wire leaves.
fn label_step(flat: &Flat, of: &[u32], known: &[bool], values: &[Bits], w: u32) -> Option<Step>
    requires found { AreFound flat.now of.now known.now values.now }
    requires within { w < length flat.now.widths }
    ensures none { IfNone result (LabelHoldsAt of.now known.now w) }
    ensures some { IfSome result (IsStep flat.now of.now known.now) }
{
    let other = label(of, w as usize);
    if mark(known, w) {
        if mark(known, other) {
            return None;
        }
        return Some(Step::Mark(other));
    }
    if mark(known, other) {
        return Some(Step::Mark(w));
    }
    None
}

/// A step that labels of marked wires leave.
pub(crate) fn labels_step(flat: &Flat, of: &[u32], known: &[bool], values: &[Bits]) -> Option<Step>
    requires { AreFound flat.now of.now known.now values.now }
    ensures none { IfNone result (LabelsHold of.now known.now) }
    ensures some { IfSome result (IsStep flat.now of.now known.now) }
{
    for w in 0..flat.widths.len() as u32 {
        if let Some(step) = label_step(flat, of, known, values, w) {
            return Some(step);
        }
    }
    None
}
