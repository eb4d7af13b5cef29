//! Large nets: a chain of wires in one module, modules in one another, a module of many ports, and
//! twice the same pipeline.

ghost use Rattle.std.specs.Prelude.{◌<◌};

use chw_base::{DomId, ModId, Name, NoMemory, Seq, WireId};
use chw_bits::Bits;
use chw_clock::Port;
use itoa::Buffer;
use netlist::samples::one_input;
use netlist::{Cell, Module, Net, Op2};
use std::alloc::Global;

// The cell of a chain that drives this wire: it copies the next one, and the last copies the input.
fn link(wires: u32, to: u32) -> Cell
    requires { to < wires }
{
    let from = if to + 1 < wires { to + 1 } else { 0 };
    Cell::Copy(WireId { number: to }, WireId { number: from })
}

// The cells of a chain from its second wire to this one. Each copies the next one, so they stand in reverse order.
fn links(alloc: Global, wires: u32) -> Result<Vec<Cell>, NoMemory> {
    let mut cells = Vec::new(alloc);
    for to in 1..wires {
        cells.push(link(wires, to))?;
    }
    Ok(cells)
}

/// A net of an input, wire 0, and a chain of wires of 8 bits.
pub(crate) fn chain(alloc: Global, wires: u32) -> Result<Net, NoMemory> {
    let cells = links(alloc, wires)?;
    let top = module(alloc, wires, cells, Seq::from(Vec::new(alloc)))?;
    Ok(Net {
        ports: one_input(alloc)?,
        modules: Seq::from(vec![in alloc; top]?),
    })
}

// A module of so many wires of 8 bits, of which the first is its input.
fn module(
    alloc: Global,
    wires: u32,
    cells: Vec<Cell>,
    outputs: Seq<WireId>,
) -> Result<Module, NoMemory> {
    Ok(Module {
        inputs: 1,
        widths: Seq::from(vec![in alloc; 8; wires as usize]?),
        outputs,
        cells: Seq::from(cells),
    })
}

// A module with a chain of so many wires, and one wire more that the module of the number before drives, if there is one.
fn storey(alloc: Global, number: u32, wires: u32) -> Result<Module, NoMemory> {
    let last = WireId { number: wires };
    let first = WireId { number: 1 };
    let mut cells = links(alloc, wires)?;
    let cell = match number.checked_sub(1) {
        Some(below) => {
            let reads = Seq::from(vec![in alloc; first]?);
            let drives = Seq::from(vec![in alloc; last]?);
            Cell::Use(ModId { number: below }, reads, drives)
        }
        None => Cell::Copy(last, first),
    };
    cells.push(cell)?;
    let all = wires.checked_add(1).ok_or(NoMemory)?;
    module(alloc, all, cells, Seq::from(vec![in alloc; last]?))
}

/// A net of so many modules of so many wires. Each but the first uses the one before it.
pub(crate) fn tower(alloc: Global, modules: u32, wires: u32) -> Result<Net, NoMemory> {
    let mut storeys = Vec::new(alloc);
    for number in 0..modules {
        storeys.push(storey(alloc, number, wires)?)?;
    }
    let mut ports = one_input(alloc)?;
    ports.outputs = one_input(alloc)?.inputs;
    Ok(Net {
        ports,
        modules: Seq::from(storeys),
    })
}

// A module of so many inputs of 8 bits, whose output is another wire, which the cell drives.
fn wide(alloc: Global, inputs: u32, cell: Cell) -> Result<Module, NoMemory> {
    let wires = inputs.checked_add(1).ok_or(NoMemory)?;
    let outputs = vec![in alloc; WireId { number: inputs }]?;
    Ok(Module {
        inputs,
        widths: Seq::from(vec![in alloc; 8; wires as usize]?),
        outputs: Seq::from(outputs),
        cells: Seq::from(vec![in alloc; cell]?),
    })
}

// So many wires, in order.
fn first_wires(alloc: Global, count: u32) -> Result<Vec<WireId>, NoMemory> {
    let mut wires = Vec::new(alloc);
    for number in 0..count {
        wires.push(WireId { number })?;
    }
    Ok(wires)
}

// So many inputs of the first domain, with the names a0, a1 and so on.
fn many_inputs(alloc: Global, count: u32) -> Result<Vec<Port>, NoMemory> {
    let mut inputs = Vec::new(alloc);
    let mut digits = Buffer::new();
    for number in 0..count {
        let mut name = vec![in alloc; b'a']?;
        name.extend_from_slice(digits.format(number).as_bytes())?;
        inputs.push(Port {
            name: Name::from(name),
            dom: DomId { number: 0 },
            width: 8,
        })?;
    }
    Ok(inputs)
}

/// A net of two modules of so many inputs, of which the top uses the other.
pub(crate) fn ports(alloc: Global, inputs: u32) -> Result<Net, NoMemory> {
    let last = WireId { number: inputs };
    let reads = Seq::from(first_wires(alloc, inputs)?);
    let drives = Seq::from(vec![in alloc; last]?);
    let inner = wide(alloc, inputs, Cell::Copy(last, WireId { number: 0 }))?;
    let top = wide(alloc, inputs, Cell::Use(ModId { number: 0 }, reads, drives))?;
    let mut modules = vec![in alloc; inner]?;
    modules.push(top)?;
    let mut ports = one_input(alloc)?;
    ports.outputs = one_input(alloc)?.inputs;
    ports.inputs = Seq::from(many_inputs(alloc, inputs)?);
    Ok(Net {
        ports,
        modules: Seq::from(modules),
    })
}

// The cell that drives this wire of two pipelines whose wires take turns: by turns a sum of the
// wire before it and the input, and a register.
fn stage(alloc: Global, number: u32) -> Result<Cell, NoMemory> {
    let to = WireId { number };
    let input = WireId { number: 0 };
    let before = WireId {
        number: number.saturating_sub(2),
    };
    if number % 4 == 1 || number % 4 == 2 {
        return Ok(Cell::Bin(to, Op2::Add, before, input));
    }
    let zeros = Bits::of_list(vec![in alloc; false; 8]?);
    Ok(Cell::Reg(to, DomId { number: 0 }, zeros, before))
}

/// A net of an input, wire 0, and twice the same pipeline of sums and registers, with the last
/// wires of both as outputs. Half of its cells are left where equal wires are shared.
pub(crate) fn twice(alloc: Global, wires: u32) -> Result<Net, NoMemory> {
    let mut cells = Vec::new(alloc);
    for number in 1..wires {
        cells.push(stage(alloc, number)?)?;
    }
    let mut outputs = vec![in alloc;
        WireId {
            number: wires.saturating_sub(2)
        },
    ]?;
    outputs.push(WireId {
        number: wires.saturating_sub(1),
    })?;
    let top = module(alloc, wires, cells, Seq::from(outputs))?;
    let mut ports = one_input(alloc)?;
    ports.outputs = Seq::from(many_inputs(alloc, 2)?);
    Ok(Net {
        ports,
        modules: Seq::from(vec![in alloc; top]?),
    })
}
