//! Small nets, and what `order` finds in them.
ghost use Rattle.netlist.specs.Sound.{Sound};

use crate::flat::flat_of;
use crate::graphs::put_numbers;
use crate::slow::{is_loop, is_order, slow_order};
use chw_base::{DomId, NoMemory, Or, Seq, WireId};
use chw_clock::Bits;
use netlist::ordering::order;
use netlist::samples::one_input;
use netlist::{Cell, Flat, Module, Net, Op2};
use row_tables::{Unread, put, put_number};
use std::alloc::Global;

// The wire of a numeral.
fn wire(numeral: &str) -> Result<WireId, Or<Unread>> {
    match numeral.parse::<u32>() {
        Ok(number) => Ok(WireId { number }),
        Err(_) => Err(Or::Fault(Unread)),
    }
}

// The cell that drives a wire of 8 bits as a word says.
fn cell(alloc: Global, to: u32, word: &str) -> Result<Cell, Or<Unread>> {
    let to = WireId { number: to };
    if let Some(read) = word.strip_prefix('r') {
        let from = wire(read)?;
        let Ok(initial) = Bits::of_number(alloc, 8, 0) else {
            return Err(Or::Memory);
        };
        return Ok(Cell::Reg(to, DomId { number: 0 }, initial, from));
    }
    match word.split_once('+') {
        Some((a, b)) => Ok(Cell::Bin(to, Op2::Add, wire(a)?, wire(b)?)),
        None => Ok(Cell::Copy(to, wire(word)?)),
    }
}

// The module of an input, wire 0, and the wires of 8 bits that these words drive, from wire 1 on.
fn module(alloc: Global, text: &str) -> Result<Module, Or<Unread>> {
    let mut cells = Vec::new(alloc);
    let mut widths = Vec::new(alloc);
    widths.push(8)?;
    for (place, word) in text.split_whitespace().take(100).enumerate() {
        cells.push(cell(alloc, place as u32 + 1, word)?)?;
        widths.push(8)?;
    }
    Ok(Module {
        inputs: 1,
        widths: Seq::from(widths),
        outputs: Seq::from(Vec::new(alloc)),
        cells: Seq::from(cells),
    })
}

// The net of such a module.
fn net(alloc: Global, text: &str) -> Result<Net, Or<Unread>> {
    let ports = one_input(alloc)?;
    let modules = vec![in alloc; module(alloc, text)?]?;
    Ok(Net {
        ports,
        modules: Seq::from(modules),
    })
}

/// Writes what `order` finds in a net: the order of its cells, or a loop of its wires. If the call is `has`, it writes which of the two
/// that is, or `wrong` where a plain search finds the other one, or what is found is none.
pub(crate) fn put_found(
    alloc: Global,
    call: &str,
    text: &str,
    out: &mut Vec<u8>,
) -> Result<(), Or<Unread>> {
    let flat = flat_of(alloc, &net(alloc, text)?)?;
    put_found_in(alloc, call == "has", &flat, out)
}

/// The same of a sound net.
pub(crate) fn put_found_in(
    alloc: Global,
    has: bool,
    flat: &Flat,
    out: &mut Vec<u8>,
) -> Result<(), Or<Unread>>
    requires { Sound flat.now }
{
    let cells = flat.cells.as_slice();
    match order(alloc, flat) {
        Ok(order) => Ok(put_order(alloc, has, cells, order.cells.as_slice(), out)?),
        Err(Or::Fault(found)) => Ok(put_loop(alloc, has, cells, found.cycle.as_slice(), out)?),
        Err(Or::Memory) => Err(Or::Memory),
    }
}

// Writes an order; or that it is one and a plain search finds one too.
fn put_order(
    alloc: Global,
    has: bool,
    cells: &[Cell],
    places: &[u32],
    out: &mut Vec<u8>,
) -> Result<(), NoMemory> {
    if has {
        let right = match slow_order(alloc, cells)? {
            Some(slow) => is_order(cells, &slow) && is_order(cells, places),
            None => false,
        };
        return put(out, if right { "order" } else { "wrong" });
    }
    put(out, "order")?;
    put_numbers(out, places)
}

// Writes a loop; or that it is one and a plain search finds no order.
fn put_loop(
    alloc: Global,
    has: bool,
    cells: &[Cell],
    wires: &[WireId],
    out: &mut Vec<u8>,
) -> Result<(), NoMemory> {
    if has {
        let right = slow_order(alloc, cells)?.is_none() && is_loop(cells, wires);
        return put(out, if right { "loop" } else { "wrong" });
    }
    put(out, "loop")?;
    for wire in wires {
        put_number(out, " ", wire.number)?;
    }
    Ok(())
}
