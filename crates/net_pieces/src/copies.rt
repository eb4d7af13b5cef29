//! Copies of wires, constants, registers, and uses of modules.
ghost use Rattle.std.specs.Prelude.{◌≡◌, ◌+◌, [], length, OnOk};
ghost use Rattle.net_built.specs.Circuits.{use_cells};
ghost use Rattle.net_built.specs.Wires.{wire, one, ◌▸◌, present, copy_cells, copies};
ghost use Rattle.net_built.specs.Words.{only};
ghost use Rattle.netlist.specs.declared.net.Cell.TheVariants.{Const, Reg, Use};

use crate::cells::Pieces;
use crate::parts;
use chw_base::{DomId, ModId, NoMemory, Seq, WireId};
use chw_bits::Bits;
use netlist::Cell;
use std::alloc::Global;

// A copy of each wire, on the wires behind, which are still to be added.
fn copy_cells(into: &mut Pieces, wires: &[WireId]) -> Result<(), NoMemory>
    ensures { OnOk result (into.new ≡ into.old
        ▸ record { widths = []; cells = copy_cells (length into.old.widths) wires.now }) }
{
    let mut number = into.next();
    for a in wires {
        into.add_cell(Cell::Copy(WireId { number }, *a))?;
        number = parts::sum(number, 1)?;
    }
    Ok(())
}

/// Appends copies of wires, for parts of these widths.
pub fn copies(into: &mut Pieces, wires: &[WireId], widths: &[u32]) -> Result<(), NoMemory>
    ensures { OnOk result (into.new ≡ into.old ▸ copies (length into.old.widths) wires.now widths.now) }
{
    copy_cells(into, wires)?;
    into.add_wires(widths)
}

/// Appends a constant.
pub fn constant(into: &mut Pieces, width: u32, bits: Bits) -> Result<(), NoMemory>
    ensures { OnOk result (into.new ≡ into.old ▸ one width (Const (wire (length into.old.widths)) bits)) }
{
    let w = into.next_wire();
    into.one(width, Cell::Const(w, bits))
}

/// Appends a register of a domain with these initial bits, on a wire.
pub fn register(
    into: &mut Pieces,
    width: u32,
    domain: DomId,
    bits: Bits,
    a: &[WireId],
) -> Result<(), NoMemory>
    ensures { OnOk result (into.new ≡ into.old
        ▸ one width (Reg (wire (length into.old.widths)) domain bits (only a.now))) }
{
    let w = into.next_wire();
    into.one(width, Cell::Reg(w, domain, bits, parts::only(a)))
}

/// Appends a use of a module on these wires, for parts of these widths. Where none has a wire it is left out.
pub fn used(
    into: &mut Pieces,
    alloc: Global,
    callee: ModId,
    reads: &[WireId],
    widths: &[u32],
) -> Result<(), NoMemory>
    ensures { OnOk result (into.new ≡ into.old ▸ record {
      widths = present widths.now;
      cells = use_cells (length into.old.widths) widths.now (λ drives. Use callee reads.now drives);
    }) }
{
    let first = into.next();
    into.add_wires(widths)?;
    let count = into.next() - first;
    if count == 0 {
        return Ok(());
    }
    let reads = Vec::from_slice(alloc, reads)?;
    let drives = parts::wires_from(alloc, first, count)?;
    into.add_cell(Cell::Use(callee, Seq::from(reads), drives))
}
