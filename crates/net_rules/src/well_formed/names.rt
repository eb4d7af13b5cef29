//! Whether all that a module names exists.
ghost use Rattle.std.specs.Prelude.{◌≡◌, ◌<◌, length, take, IfOk};
ghost use Rattle.std.specs.Bool.{Decides};
ghost use Rattle.std.specs.List.{AllByRecursion};
ghost use Rattle.netlist.specs.Sound.{IsWire};
ghost use Rattle.net_rules.specs.WellFormed.{NamesExist, NamesHold, PartExists, TopNamesHold, UseExists};
ghost use Rattle.netlist.specs.Wires.{driven, read_by};

use crate::well_formed::ports::ports_hold;
use crate::well_formed::widths::is_wire;
use chw_base::{ModId, NoMemory, WireId};
use chw_clock::Ports;
use netlist::{Cell, Module, Net};
use std::alloc::Global;

// Whether these wires exist.
fn are_wires(widths: &[u32], wires: &[WireId]) -> bool
    ensures { Decides result (AllByRecursion (IsWire widths.now) wires.now) }
{
    wires.iter().all(|w| is_wire(widths, *w))
}

// Whether the wires that a cell drives exist.
fn drives_wires(widths: &[u32], cell: &Cell) -> bool
    ensures { Decides result (AllByRecursion (IsWire widths.now) (driven cell.now)) }
{
    are_wires(widths, cell.driven())
}

// Whether the wires that a cell reads exist.
fn reads_wires(widths: &[u32], cell: &Cell) -> bool
    ensures { Decides result (AllByRecursion (IsWire widths.now) (read_by cell.now)) }
{
    match cell {
        Cell::Const(_, _) => true,
        Cell::Copy(_, a) | Cell::Cut(_, a, _, _) | Cell::Un(_, _, a) | Cell::Reg(_, _, _, a) => {
            is_wire(widths, *a)
        }
        Cell::Bin(_, _, a, b) => are_wires(widths, &[*a, *b]),
        Cell::Mux(_, c, a, b) => are_wires(widths, &[*c, *a, *b]),
        Cell::Ram(_, _, _, inputs) => {
            are_wires(
                widths,
                &[inputs.read, inputs.enable, inputs.place, inputs.value],
            )
        }
        Cell::Join(_, parts) => are_wires(widths, parts.as_slice()),
        Cell::Use(_, reads, _) => are_wires(widths, reads.as_slice()),
    }
}

// Whether a use is of one of these modules, and has a wire for each of its inputs and outputs.
fn use_exists(earlier: &[Module], m: ModId, reads: &[WireId], drives: &[WireId]) -> bool
    ensures { Decides result (UseExists earlier.now m.number reads.now drives.now) }
{
    match earlier.get(m.number as usize) {
        Some(used) => reads.len() == used.inputs as usize && drives.len() == used.outputs.len(),
        None => false,
    }
}

// Whether the domain or the module that a cell names exists.
fn part_exists(domains: usize, earlier: &[Module], cell: &Cell) -> bool
    ensures { Decides result (PartExists domains earlier.now cell.now) }
{
    match cell {
        Cell::Reg(_, domain, _, _) | Cell::Ram(_, domain, _, _) => {
            (domain.number as usize) < domains
        }
        Cell::Use(m, reads, drives) => {
            use_exists(earlier, *m, reads.as_slice(), drives.as_slice())
        }
        _ => true,
    }
}

// Whether all that a cell names exists.
fn names_exist(domains: usize, earlier: &[Module], widths: &[u32], cell: &Cell) -> bool
    ensures { Decides result (NamesExist domains earlier.now widths.now cell.now) }
{
    drives_wires(widths, cell) && reads_wires(widths, cell) && part_exists(domains, earlier, cell)
}

// Whether all that each cell names exists.
fn cells_name(domains: usize, earlier: &[Module], m: &Module) -> bool
    ensures { Decides result (AllByRecursion (NamesExist domains earlier.now m.now.widths) m.now.cells) }
{
    let widths = m.widths.as_slice();
    m.cells
        .as_slice()
        .iter()
        .all(|cell| names_exist(domains, earlier, widths, cell))
}

// Whether the rules on ports hold, and the module has as many inputs and outputs.
fn top_names_hold(alloc: Global, ports: &Ports, top: &Module) -> Result<bool, NoMemory>
    ensures { IfOk result (λ r. Decides r (TopNamesHold ports.now top.now)) }
{
    if ports.inputs.len() != top.inputs as usize || ports.outputs.len() != top.outputs.len() {
        return Ok(false);
    }
    ports_hold(alloc, ports)
}

/// Whether all that a module names exists and, if it is the last, the rules on ports hold.
///
/// It takes memory for the names of ports.
pub(crate) fn names_hold(alloc: Global, net: &Net, i: usize, m: &Module) -> Result<bool, NoMemory>
    requires { i < length net.now.modules }
    ensures { IfOk result (λ r. Decides r (NamesHold net.now i m.now)) }
{
    let modules = net.modules.as_slice();
    let found = cells_name(net.ports.domains.len(), &modules[..i], m)
        && are_wires(m.widths.as_slice(), m.outputs.as_slice());
    if !found || i + 1 < modules.len() {
        return Ok(found);
    }
    top_names_hold(alloc, &net.ports, m)
}
