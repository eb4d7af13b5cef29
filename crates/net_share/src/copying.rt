//! Which cells copy a wire, by the classes of equal wires.
ghost use Rattle.std.specs.Prelude.{◌≡◌, ◌+◌, ◌<◌, ◌==◌, ◌&&◌, ◌||◌, length, slice_index};
ghost use Rattle.std.specs.Prelude.{IfNone, IfSome};
ghost use Rattle.std.specs.List.{AllByRecursion};
ghost use Rattle.net_share.specs.Copying.{Drives, IsCutWithin, are_one, has_bits, is_copy};
ghost use Rattle.netlist.specs.Sound.{IsWire, Sound};
ghost use Rattle.netlist.specs.Wires.{read_by};

use chw_base::WireId;
use netlist::{Cell, Flat};
use wire_classes::Classes;

// Whether two wires are of one class.
fn in_one_class(classes: &Classes, v: WireId, w: WireId) -> bool
    requires first { v.number < length classes.now.of }
    requires second { w.number < length classes.now.of }
    ensures { result ≡ are_one classes.now v.number w.number }
{
    classes.class(v) == classes.class(w)
}

// Whether bits of the condition are known, or the other wires are of one class.
fn chooses_one(classes: &Classes, on: WireId, a: WireId, b: WireId) -> bool
    requires on { on.number < length classes.now.known }
    requires first { a.number < length classes.now.of }
    requires second { b.number < length classes.now.of }
    ensures { result ≡ (has_bits classes.now on.number || are_one classes.now a.number b.number) }
{
    classes.is_known(on) || in_one_class(classes, a, b)
}

// Whether the bits of a cut are all of a wire's.
fn cuts_all(widths: &[u32], a: WireId, high: u32, low: u32) -> bool
    requires wire { a.number < length widths.now }
    requires within { high < slice_index widths.now a.number }
    ensures { result ≡ ((low == 0) && (slice_index widths.now a.number == high + 1)) }
{
    let width = widths[a.number as usize];
    let next = high + 1;
    low == 0 && width == next
}

/// Whether a cell copies a wire, where wires have these widths and classes.
pub(crate) fn copies(widths: &[u32], classes: &Classes, cell: &Cell) -> bool
    requires reads { AllByRecursion (IsWire widths.now) (read_by cell.now) }
    requires cut { IsCutWithin widths.now cell.now }
    requires classes { length classes.now.of ≡ length widths.now }
    requires known { length classes.now.known ≡ length widths.now }
    ensures { result ≡ is_copy widths.now classes.now cell.now }
{
    match cell {
        Cell::Copy(_, _) => true,
        Cell::Join(_, parts) => parts.len() == 1,
        Cell::Cut(_, a, high, low) => cuts_all(widths, *a, *high, *low),
        Cell::Mux(_, on, a, b) => chooses_one(classes, *on, *a, *b),
        Cell::Const(_, _) | Cell::Un(_, _, _) | Cell::Bin(_, _, _, _) => false,
        Cell::Reg(_, _, _, _) | Cell::Ram(_, _, _, _) | Cell::Use(_, _, _) => false,
    }
}

/// The cell that drives a wire; none drives an input.
pub(crate) fn cell_of(flat: &Flat, w: u32) -> Option<&Cell>
    requires sound { Sound flat.now }
    requires wire { w < length flat.now.widths }
    ensures input { IfNone result (w < length flat.now.ports.inputs) }
    ensures driven { IfSome result (λ cell. Drives flat.now w cell.now) }
{
    let inputs = flat.ports.inputs.len();
    let wire = w as usize;
    if wire < inputs {
        return None;
    }
    let place = wire - inputs;
    Some(&flat.cells.as_slice()[place])
}
