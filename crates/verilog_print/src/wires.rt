//! The declarations of wires, by the cells that drive them.
ghost use Rattle.std.specs.Prelude.{◌≡◌, ◌++◌, ◌==◌, ◌<◌, ℕ, length, drop, slice_index_or, if◌then◌else◌, Some, None, OnOk, IfOk};
ghost use Rattle.std.specs.List.{list_any};
ghost use Rattle.verilog_text.specs.Text.{declaration, declarations, memory_declaration, register_declaration, wire_declaration};
ghost use Rattle.netlist.specs.Wires.{driven, driver};
ghost use Rattle.verilog_print.specs.Parts.{register_start};
ghost use Rattle.netlist.specs.NetValue.{zeros};
ghost use Rattle.verilog_print.specs.Drivers.{cell_at};

use crate::names::{put_memory, put_wire};
use crate::pieces::{put, put_literal, put_low_bits, put_number, put_range};
use chw_base::{NoMemory, WireId};
use chw_clock::Bits;
use netlist::{Cell, Module};
use std::alloc::Global;

/// Notes the place of a cell at each of the wires that it drives.
fn note(table: &mut Vec<Option<usize>>, wires: &[WireId], place: usize)
    ensures len { length table.new.items ≡ length table.old.items }
    ensures noted { (k : ℕ) → k < length table.old.items →
        slice_index_or table.new.items k None
        ≡ (if list_any (λ w. w.number == k) wires.now then Some place else slice_index_or table.old.items k None) }
{
    for wire in wires {
        let number = wire.number as usize;
        if number < table.len() {
            table[number] = Some(place);
        }
    }
}

/// For each of this many wires, the place of the first cell that drives it.
fn drivers(alloc: Global, cells: &[Cell], count: usize) -> Result<Vec<Option<usize>>, NoMemory>
    ensures len { IfOk result (λ table. length table.items ≡ count) }
    ensures drivers { IfOk result (λ table. (k : ℕ) → k < count → cell_at cells.now (slice_index_or table.items k None) ≡ driver cells.now k) }
{
    let mut table = vec![in alloc; None; count]?;
    for place in (0..cells.len()).rev() {
        note(&mut table, cells[place].driven(), place);
    }
    Ok(table)
}

/// Writes the declaration of a wire that neither a register nor a RAM drives.
fn declare_wire(out: &mut Vec<u8>, wire: usize, width: u32) -> Result<(), NoMemory>
    ensures { OnOk result (out.new.items ≡ out.old.items ++ wire_declaration wire width) }
{
    put(out, b"  wire ")?;
    put_range(out, width)?;
    put(out, b" ")?;
    put_wire(out, wire)?;
    put(out, b";\n")?;
    Ok(())
}

/// Writes the start of a register's declaration, up to its initial bits.
fn start_register(out: &mut Vec<u8>, wire: usize, width: u32) -> Result<(), NoMemory>
    ensures { OnOk result (out.new.items ≡ out.old.items ++ register_start wire width) }
{
    put(out, b"  reg ")?;
    put_range(out, width)?;
    put(out, b" ")?;
    put_wire(out, wire)?;
    put(out, b" = ")?;
    Ok(())
}

/// Writes the declaration of a register with its initial bits.
fn declare_register(
    out: &mut Vec<u8>,
    wire: usize,
    width: u32,
    initial: &Bits,
) -> Result<(), NoMemory>
    ensures { OnOk result (out.new.items ≡ out.old.items ++ register_declaration wire width initial.now) }
{
    start_register(out, wire, width)?;
    put_literal(out, initial)?;
    put(out, b";\n")?;
    Ok(())
}

/// Writes the declaration of what a RAM shows, which is zeros at first.
fn declare_shown(alloc: Global, out: &mut Vec<u8>, wire: usize, width: u32) -> Result<(), NoMemory>
    ensures { OnOk result (out.new.items ≡ out.old.items ++ register_declaration wire width (zeros width)) }
{
    start_register(out, wire, width)?;
    put_low_bits(alloc, out, width, 0)?;
    put(out, b";\n")?;
    Ok(())
}

/// Writes the declaration of a memory of so many words.
fn declare_memory(out: &mut Vec<u8>, wire: usize, width: u32, count: usize) -> Result<(), NoMemory>
    ensures { OnOk result (out.new.items ≡ out.old.items ++ memory_declaration wire width count) }
{
    put(out, b"  reg ")?;
    put_range(out, width)?;
    put(out, b" ")?;
    put_memory(out, wire)?;
    put(out, b" [0:")?;
    put_number(out, count.saturating_sub(1))?;
    put(out, b"];\n")?;
    Ok(())
}

/// Writes the declarations of what a RAM of so many words shows, and of its memory.
fn declare_ram(
    alloc: Global,
    out: &mut Vec<u8>,
    wire: usize,
    width: u32,
    count: usize,
) -> Result<(), NoMemory>
    ensures { OnOk result (out.new.items ≡ out.old.items
        ++ (register_declaration wire width (zeros width) ++ memory_declaration wire width count)) }
{
    declare_shown(alloc, out, wire, width)?;
    declare_memory(out, wire, width, count)?;
    Ok(())
}

/// Writes the declaration of a wire, by the place of the cell that drives it.
fn declare(
    alloc: Global,
    out: &mut Vec<u8>,
    cells: &[Cell],
    place: Option<usize>,
    wire: usize,
    width: u32,
) -> Result<(), NoMemory>
    ensures { OnOk result (out.new.items ≡ out.old.items ++ declaration (cell_at cells.now place) wire width) }
{
    let Some(place) = place else {
        return declare_wire(out, wire, width);
    };
    match cells.get(place) {
        Some(Cell::Reg(_, _, initial, _)) => declare_register(out, wire, width, initial),
        Some(Cell::Ram(_, _, words, _)) => declare_ram(alloc, out, wire, width, words.len()),
        _ => declare_wire(out, wire, width),
    }
}

/// Writes the declarations of all wires that are no inputs, in order.
pub fn put_declarations(alloc: Global, out: &mut Vec<u8>, body: &Module) -> Result<(), NoMemory>
    ensures { OnOk result (out.new.items ≡ out.old.items ++ declarations body.now) }
{
    let cells = body.cells.as_slice();
    let widths = body.widths.as_slice();
    let places = drivers(alloc, cells, widths.len())?;
    for wire in body.inputs as usize..widths.len() {
        declare(alloc, out, cells, places[wire], wire, widths[wire])?;
    }
    Ok(())
}
