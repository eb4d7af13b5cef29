//! Nets of several modules, and their flat nets.
ghost use Rattle.std.specs.Prelude.{IfOk};
ghost use Rattle.netlist.specs.Sound.{Sound};
ghost use Rattle.net_rules.specs.WellFormed.{WellFormed};

use crate::nets::put_found_in;
use chw_base::{NoMemory, Or, WireId};
use net_flat::flatten::flatten;
use net_notation::net_of;
use net_rules::well_formed::well_formed;
use netlist::{Cell, Flat, Net};
use row_tables::{Unread, bytes_of, put, put_number};
use std::alloc::Global;

/// Of how many cells, at most, each is written.
const FEW: usize = 20;

/// The flat net of a well formed net that isn't too large.
pub(crate) fn flat_of(alloc: Global, net: &Net) -> Result<Flat, Or<Unread>>
    ensures { IfOk result Sound }
{
    match well_formed(alloc, net) {
        Ok(()) => {}
        Err(Or::Memory) => return Err(Or::Memory),
        Err(Or::Fault(_)) => return Err(Or::Fault(Unread)),
    }
    match flatten(alloc, net) {
        Ok(flat) => Ok(flat),
        Err(Or::Memory) => Err(Or::Memory),
        Err(Or::Fault(_)) => Err(Or::Fault(Unread)),
    }
}

/// The net of a text, in which pieces may stand several times.
pub(crate) fn net_in(alloc: Global, text: &str) -> Result<Net, Or<Unread>> {
    let bytes = bytes_of(alloc, text)?;
    match std::str::from_utf8(&bytes) {
        Ok(text) => net_of(alloc, text),
        Err(_) => Err(Or::Fault(Unread)),
    }
}

/// Writes an order of the cells of a net's flat net, or a loop of its wires.
pub(crate) fn put_flat_found(
    alloc: Global,
    text: &str,
    out: &mut Vec<u8>,
) -> Result<(), Or<Unread>> {
    let flat = flat_of(alloc, &net_in(alloc, text)?)?;
    put_found_in(alloc, false, &flat, out)
}

/// Writes how many wires the flat net of a net has, and its cells where they are few; or that it is too large.
pub(crate) fn put_flat(alloc: Global, text: &str, out: &mut Vec<u8>) -> Result<(), Or<Unread>> {
    let net = net_in(alloc, text)?;
    match well_formed(alloc, &net) {
        Ok(()) => put_flat_of(alloc, &net, out),
        Err(Or::Memory) => Err(Or::Memory),
        Err(Or::Fault(_)) => Err(Or::Fault(Unread)),
    }
}

fn put_flat_of(alloc: Global, net: &Net, out: &mut Vec<u8>) -> Result<(), Or<Unread>>
    requires { WellFormed net.now }
{
    match flatten(alloc, net) {
        Ok(flat) => Ok(put_parts(out, flat.widths.len(), flat.cells.as_slice())?),
        Err(Or::Memory) => Err(Or::Memory),
        Err(Or::Fault(_)) => Ok(put(out, "too large")?),
    }
}

/// Writes how many wires there are, and the cells where they are few.
pub(crate) fn put_parts(out: &mut Vec<u8>, wires: usize, cells: &[Cell]) -> Result<(), NoMemory> {
    put_number(out, "", wires.min(1_000_000) as u32)?;
    put(out, " wires")?;
    if cells.len() > FEW {
        return Ok(());
    }
    for (place, cell) in cells.iter().enumerate() {
        put(out, if place == 0 { ": " } else { ", " })?;
        put_cell(out, cell)?;
    }
    Ok(())
}

// Writes the kind of a cell, the wire that it drives, and those that it reads.
fn put_cell(out: &mut Vec<u8>, cell: &Cell) -> Result<(), NoMemory> {
    put(out, kind_of(cell))?;
    if let Some(wire) = cell.driven().first() {
        put_number(out, " ", wire.number)?;
    }
    match cell {
        Cell::Reg(_, _, _, a) => put_number(out, " ", a.number),
        Cell::Ram(_, _, _, inputs) => {
            put_wires(
                out,
                &[inputs.read, inputs.enable, inputs.place, inputs.value],
            )
        }
        _ => put_awaited(out, cell),
    }
}

/// Writes the numbers of wires.
pub(crate) fn put_wires(out: &mut Vec<u8>, wires: &[WireId]) -> Result<(), NoMemory> {
    for wire in wires {
        put_number(out, " ", wire.number)?;
    }
    Ok(())
}

fn put_awaited(out: &mut Vec<u8>, cell: &Cell) -> Result<(), NoMemory> {
    for k in 0..cell.awaited_len() {
        if let Some(wire) = cell.awaited(k) {
            put_number(out, " ", wire.number)?;
        }
    }
    Ok(())
}

fn kind_of(cell: &Cell) -> &'static str {
    match cell {
        Cell::Const(_, _) => "Const",
        Cell::Copy(_, _) => "Copy",
        Cell::Join(_, _) => "Join",
        Cell::Cut(_, _, _, _) => "Cut",
        Cell::Un(_, _, _) => "Un",
        Cell::Bin(_, _, _, _) => "Bin",
        Cell::Mux(_, _, _, _) => "Mux",
        Cell::Reg(_, _, _, _) => "Reg",
        Cell::Ram(_, _, _, _) => "Ram",
        Cell::Use(_, _, _) => "Use",
    }
}
