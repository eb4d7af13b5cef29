//! How many flat wires an instance of each module of a net has.
ghost use Rattle.std.specs.Prelude.{◌≡◌, ◌+◌, length, sum_by, IfOk};
ghost use Rattle.net_rules.specs.WellFormed.{WellFormed};
ghost use Rattle.net_flat.specs.Sizes.{AreSizes, capped, size_in};

use chw_base::NoMemory;
use chw_base::limits::FLAT_WIRES;
use netlist::{Cell, Module, Net};
use std::alloc::Global;

// So many wires, but no more than one over the limit.
fn counted(wires: usize) -> u32
    ensures { result ≡ capped wires }
{
    wires.min(FLAT_WIRES as usize + 1) as u32
}

/// How many flat wires the instance has that a cell uses, by the sizes of modules, and none if the cell is no use.
pub(crate) fn size_of_use(sizes: &[u32], cell: &Cell) -> u32
    ensures { result ≡ size_in sizes.now cell.now }
{
    match cell {
        Cell::Use(module, _, _) => match sizes.get(module.number as usize) {
            Some(size) => *size,
            None => 0,
        },
        _ => 0,
    }
}

// How many flat wires an instance of a module has, by the sizes of the modules that it uses.
fn size_of(sizes: &[u32], m: &Module) -> u32
    ensures { result ≡ capped (length m.now.widths + sum_by (size_in sizes.now) m.now.cells) }
{
    let mut size = counted(m.widths.len());
    for cell in m.cells.as_slice() {
        size = counted(size as usize + size_of_use(sizes, cell) as usize);
    }
    size
}

/// How many flat wires an instance of each module has. One over the limit stands for all that is more.
pub(crate) fn sizes(alloc: Global, net: &Net) -> Result<Vec<u32>, NoMemory>
    requires { WellFormed net.now }
    ensures sizes { IfOk result (λ s. AreSizes net.now s.items) }
    ensures all { IfOk result (λ s. length s.items ≡ length net.now.modules) }
{
    let mut sizes = Vec::new(alloc);
    for m in net.modules.as_slice() {
        sizes.push(size_of(&sizes, m))?;
    }
    Ok(sizes)
}
