//! The wires and cells of the shared net.
ghost use Rattle.std.specs.Prelude.{◌≡◌, ℕ, ◌+◌, ◌<◌, ◌≤◌, ◌++◌, ◌^◌, length, map, take, IfOk};
ghost use Rattle.std.specs.Prelude.{slice_index};
ghost use Rattle.net_share.specs.Making.{AreMade, IsMade};
ghost use Rattle.netlist.specs.Sound.{Sound};
ghost use Rattle.share_laws.specs.Shares.{IsAmong};
ghost use Rattle.wire_classes.specs.Classes.{AreClasses};

use crate::copying::cell_of;
use crate::renaming::cell_after;
use chw_base::{NoMemory, WireId};
use netlist::{Cell, Flat};
use std::alloc::Global;
use wire_classes::Classes;

/// The widths of the first wires, so many, and of the kept ones.
pub(crate) fn widths_after(
    alloc: Global,
    inputs: usize,
    widths: &[u32],
    kept: &[u32],
) -> Result<Vec<u32>, NoMemory>
    requires inputs { inputs ≤ length widths.now }
    requires kept { (w : ℕ) → IsAmong kept.now w → w < length widths.now }
    ensures { IfOk result (λ after. after.items
        ≡ take inputs widths.now ++ map (λ w. slice_index widths.now w) kept.now) }
{
    let mut after = Vec::from_slice(alloc, &widths[..inputs])?;
    for w in kept {
        after.push(widths[*w as usize])?;
    }
    Ok(after)
}

// The cell of a kept wire under its new number: a constant where bits of it are known, else its
// own cell, renamed.
fn made_cell(
    alloc: Global,
    flat: &Flat,
    classes: &Classes,
    names: &[u32],
    w: u32,
    number: u32,
) -> Result<Cell, NoMemory>
    requires sound { Sound flat.now }
    requires classes { AreClasses flat.now classes.now }
    requires names { length names.now ≡ length flat.now.widths }
    requires wire { w < length flat.now.widths }
    requires after { length flat.now.ports.inputs ≤ w }
    ensures { IfOk result (IsMade flat.now classes.now names.now w number) }
{
    let wire = WireId { number: w };
    if classes.is_known(wire) {
        let bits = classes.bits(wire).copy(alloc)?;
        return Ok(Cell::Const(WireId { number }, bits));
    }
    match cell_of(flat, w) {
        Some(cell) => cell_after(alloc, names, number, cell),
        None => unreachable!(),
    }
}

/// The cells of the kept wires, whose new numbers begin with this one.
pub(crate) fn made_cells(
    alloc: Global,
    flat: &Flat,
    classes: &Classes,
    names: &[u32],
    first: u32,
    kept: &[u32],
) -> Result<Vec<Cell>, NoMemory>
    requires sound { Sound flat.now }
    requires classes { AreClasses flat.now classes.now }
    requires names { length names.now ≡ length flat.now.widths }
    requires wires { (w : ℕ) → IsAmong kept.now w → w < length flat.now.widths }
    requires after { (w : ℕ) → IsAmong kept.now w → length flat.now.ports.inputs ≤ w }
    requires numbers { first + length kept.now < 2 ^ 32 }
    ensures { IfOk result (λ cells.
        AreMade flat.now classes.now names.now first kept.now cells.items) }
{
    let mut cells = Vec::new(alloc);
    for (k, w) in kept.iter().enumerate() {
        let number = first + k as u32;
        cells.push(made_cell(alloc, flat, classes, names, *w, number)?)?;
    }
    Ok(cells)
}
