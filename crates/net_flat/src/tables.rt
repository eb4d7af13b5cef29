//! What drives each wire of an instance.
ghost use Rattle.std.specs.Prelude.{◌≡◌, ℕ, ◌+◌, ◌<◌, ◌≤◌, ◌^◌, length, IfOk, slice_index_or};
ghost use Rattle.std.specs.List.{AllByRecursion};
ghost use Rattle.netlist.specs.Wires.{driven};
ghost use Rattle.net_flat.specs.Drivers.{ArePushed, CellMoves, IsCellFor, IsTable, StandsIn, UseGives, drivers_written, outputs_of, outputs_written};
ghost use Rattle.net_flat.specs.Entering.{Enters};
ghost use Rattle.net_flat.specs.Instances.{Moves};
ghost use Rattle.net_flat.specs.declared.tables.Driver.TheVariants.{Place};

use crate::instances::Instance;
use crate::moves::{moved_cell, moved_wire};
use crate::sizes::size_of_use;
use chw_base::{ModId, NoMemory, WireId};
use netlist::{Cell, Module, Net};
use std::alloc::Global;

/// What drives a wire of an instance.
#[derive(Clone, Copy)]
pub(crate) enum Driver {
    /// The cell at this place of the module.
    Place(usize),
    /// A use, by this flat wire of the used instance.
    Output(WireId),
}

// Writes the outputs of a used instance, by its first flat wire, at the wires that its use drives.
fn write_outputs(table: &mut [Driver], next: u32, drives: &[WireId], outputs: &[WireId])
    requires wires { AllByRecursion (λ w. w.number < length table.old) drives.now }
    requires moves { AllByRecursion (Moves next) outputs.now }
    ensures { table.new ≡ outputs_written next table.old drives.now outputs.now }
{
    for (w, output) in drives.iter().zip(outputs) {
        table[w.number as usize] = Driver::Output(moved_wire(next, *output));
    }
}

// The outputs of a module of a net.
fn outputs_of(net: &Net, k: ModId) -> &[WireId]
    ensures { result.now ≡ outputs_of net.now.modules k.number }
{
    match net.modules.as_slice().get(k.number as usize) {
        Some(m) => m.outputs.as_slice(),
        None => &[],
    }
}

// Writes the cell at a place at the wires that it drives, where the flat wires of an instance that it uses come next.
fn write_drivers(net: &Net, next: u32, place: usize, cell: &Cell, table: &mut [Driver])
    requires wires { AllByRecursion (λ w. w.number < length table.old) (driven cell.now) }
    requires moves { UseGives net.now.modules next cell.now }
    ensures { table.new ≡ drivers_written net.now.modules next place cell.now table.old }
{
    if let Cell::Use(k, _, drives) = cell {
        write_outputs(table, next, drives.as_slice(), outputs_of(net, *k));
    } else if let Some(w) = cell.driven().first().copied() {
        table[w.number as usize] = Driver::Place(place);
    }
}

/// What drives each wire of an instance, by the numbers of the module's wires.
pub(crate) fn table(
    alloc: Global,
    net: &Net,
    sizes: &[u32],
    x: &Instance,
    m: &Module,
) -> Result<Vec<Driver>, NoMemory>
    requires { Enters net.now sizes.now x.now m.now }
    ensures { IfOk result (λ t. IsTable net.now x.now.base m.now t.items) }
{
    let mut table = vec![in alloc; Driver::Place(0); m.widths.len()]?;
    let mut next = x.base + m.widths.len() as u32;
    for (place, cell) in m.cells.as_slice().iter().enumerate() {
        write_drivers(net, next, place, cell, &mut table);
        next += size_of_use(sizes, cell);
    }
    Ok(table)
}

// The flat cell of a wire of an instance, by what drives it.
fn cell_for(alloc: Global, base: u32, m: &Module, w: u32, driver: Driver) -> Result<Cell, NoMemory>
    requires moves { AllByRecursion (CellMoves base) m.now.cells }
    requires stands { StandsIn m.now.cells driver }
    requires wire { base + w < 2 ^ 32 }
    ensures { IfOk result (λ c. IsCellFor base m.now.cells w driver c) }
{
    match driver {
        Driver::Place(place) => moved_cell(alloc, base, &m.cells.as_slice()[place]),
        Driver::Output(output) => {
            let number = base + w;
            Ok(Cell::Copy(WireId { number }, output))
        }
    }
}

/// Pushes the flat cells of the wires of an instance that are no inputs, by the table of what drives them.
pub(crate) fn push_own(
    alloc: Global,
    base: u32,
    m: &Module,
    table: &[Driver],
    cells: &mut Vec<Cell>,
) -> Result<(), NoMemory>
    requires moves { AllByRecursion (CellMoves base) m.now.cells }
    requires wires { base + length m.now.widths < 2 ^ 32 }
    requires size { length table.now ≡ length m.now.widths }
    requires inputs { m.now.inputs ≤ length m.now.widths }
    requires stand { (w : ℕ) → m.now.inputs ≤ w → w < length m.now.widths →
        StandsIn m.now.cells (slice_index_or table.now w (Place 0)) }
    ensures { IfOk result (λ _. ArePushed base m.now table.now (length m.now.widths) cells.old.items cells.new.items) }
{
    for w in m.inputs..table.len() as u32 {
        let cell = cell_for(alloc, base, m, w, table[w as usize])?;
        cells.push(cell)?;
    }
    Ok(())
}
