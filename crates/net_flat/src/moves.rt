//! Cells of a module among the flat wires of an instance.
ghost use Rattle.std.specs.Prelude.{◌≡◌, ◌+◌, ◌<◌, ◌^◌, map, IfOk};
ghost use Rattle.std.specs.List.{AllByRecursion};
ghost use Rattle.netlist.specs.Wires.{driven, read_by};
ghost use Rattle.net_flat.specs.Flattened.{moved, wire_from};
ghost use Rattle.net_flat.specs.Instances.{Moves};

use crate::copies::copy_words;
use chw_base::{NoMemory, Seq, WireId};
use netlist::{Cell, RamIn};
use std::alloc::Global;

/// The flat wire of a wire of an instance.
pub(crate) fn moved_wire(base: u32, w: WireId) -> WireId
    requires { Moves base w }
    ensures { result ≡ wire_from base w }
{
    WireId {
        number: base + w.number,
    }
}

/// The flat wires of these wires of an instance.
pub(crate) fn moved_wires(
    alloc: Global,
    base: u32,
    wires: &[WireId],
) -> Result<Seq<WireId>, NoMemory>
    requires { AllByRecursion (Moves base) wires.now }
    ensures { IfOk result (λ r. r ≡ map (wire_from base) wires.now) }
{
    let mut moved = Vec::new(alloc);
    for w in wires {
        moved.push(moved_wire(base, *w))?;
    }
    Ok(Seq::from(moved))
}

// What a RAM reads, among the flat wires.
fn moved_inputs(base: u32, inputs: &RamIn) -> RamIn
    requires read { Moves base inputs.now.read }
    requires enable { Moves base inputs.now.enable }
    requires place { Moves base inputs.now.place }
    requires value { Moves base inputs.now.value }
    ensures read { result.read ≡ wire_from base inputs.now.read }
    ensures enable { result.enable ≡ wire_from base inputs.now.enable }
    ensures place { result.place ≡ wire_from base inputs.now.place }
    ensures value { result.value ≡ wire_from base inputs.now.value }
{
    RamIn {
        read: moved_wire(base, inputs.read),
        enable: moved_wire(base, inputs.enable),
        place: moved_wire(base, inputs.place),
        value: moved_wire(base, inputs.value),
    }
}

/// A cell of a module among the flat wires of an instance.
pub(crate) fn moved_cell(alloc: Global, base: u32, cell: &Cell) -> Result<Cell, NoMemory>
    requires driven { AllByRecursion (Moves base) (driven cell.now) }
    requires read { AllByRecursion (Moves base) (read_by cell.now) }
    ensures { IfOk result (λ c. c ≡ moved base cell.now) }
{
    Ok(match cell {
        Cell::Const(w, bits) => Cell::Const(moved_wire(base, *w), bits.copy(alloc)?),
        Cell::Copy(w, a) => Cell::Copy(moved_wire(base, *w), moved_wire(base, *a)),
        Cell::Join(w, parts) => {
            let parts = moved_wires(alloc, base, parts.as_slice())?;
            Cell::Join(moved_wire(base, *w), parts)
        }
        Cell::Cut(w, a, high, low) => {
            Cell::Cut(moved_wire(base, *w), moved_wire(base, *a), *high, *low)
        }
        Cell::Un(w, op, a) => Cell::Un(moved_wire(base, *w), *op, moved_wire(base, *a)),
        Cell::Bin(w, op, a, b) => {
            let w = moved_wire(base, *w);
            Cell::Bin(w, *op, moved_wire(base, *a), moved_wire(base, *b))
        }
        Cell::Mux(w, c, a, b) => {
            let w = moved_wire(base, *w);
            let c = moved_wire(base, *c);
            Cell::Mux(w, c, moved_wire(base, *a), moved_wire(base, *b))
        }
        Cell::Reg(w, domain, initial, a) => {
            let w = moved_wire(base, *w);
            let initial = initial.copy(alloc)?;
            Cell::Reg(w, *domain, initial, moved_wire(base, *a))
        }
        Cell::Ram(w, domain, words, inputs) => {
            let w = moved_wire(base, *w);
            let words = copy_words(alloc, words)?;
            Cell::Ram(w, *domain, words, moved_inputs(base, inputs))
        }
        Cell::Use(module, reads, drives) => {
            let reads = moved_wires(alloc, base, reads.as_slice())?;
            let drives = moved_wires(alloc, base, drives.as_slice())?;
            Cell::Use(*module, reads, drives)
        }
    })
}
