//! The nodes of a cell.
ghost use Rattle.std.specs.Prelude.{length, OnOk};
ghost use Rattle.netlist.specs.Sound.{FitsCell, Sound};
ghost use Rattle.netlist.specs.declared.net.Cell.TheVariants.{Const, Copy, Cut, Join, Mux};
ghost use Rattle.bit_laws.specs.Blast.{nodes_of};
ghost use Rattle.bit_blast.specs.Adding.{Adds};

use crate::gates::OneBit;
use crate::logic::choices;
use crate::names::{Word, width_of};
use crate::operations::{binary, unary};
use crate::rams::ram;
use crate::registers::register;
use crate::wiring::{constants, joined, on_each};
use bit_nodes::BitNode;
use chw_base::{NoMemory, WireId};
use chw_clock::Bits;
use netlist::{Cell, Flat};

// A constant.
fn constant(flat: &Flat, nodes: &mut Vec<BitNode>, w: WireId, bits: &Bits) -> Result<(), NoMemory>
    requires { FitsCell (length flat.now.ports.domains) flat.now.widths (Const w bits.now) }
    ensures { OnOk result (Adds flat.now nodes.old.items nodes.new.items
        (nodes_of flat.now (Const w bits.now))) }
{
    constants(nodes, w, bits.as_slice())
}

// A copy.
fn copy(flat: &Flat, nodes: &mut Vec<BitNode>, w: WireId, a: WireId) -> Result<(), NoMemory>
    requires sound { Sound flat.now }
    requires fits { FitsCell (length flat.now.ports.domains) flat.now.widths (Copy w a) }
    ensures { OnOk result (Adds flat.now nodes.old.items nodes.new.items
        (nodes_of flat.now (Copy w a))) }
{
    let width = width_of(flat, w);
    on_each(
        nodes,
        OneBit::Same,
        Word::Part(w, 0),
        Word::Part(a, 0),
        width,
    )
}

// Wires side by side.
fn join(flat: &Flat, nodes: &mut Vec<BitNode>, w: WireId, parts: &[WireId]) -> Result<(), NoMemory>
    requires sound { Sound flat.now }
    requires fits { FitsCell (length flat.now.ports.domains) flat.now.widths (Join w parts.now) }
    ensures { OnOk result (Adds flat.now nodes.old.items nodes.new.items
        (nodes_of flat.now (Join w parts.now))) }
{
    joined(flat, nodes, w, parts)
}

// The bits of a wire from one place down to another.
fn cut(
    flat: &Flat,
    nodes: &mut Vec<BitNode>,
    w: WireId,
    a: WireId,
    high: u32,
    low: u32,
) -> Result<(), NoMemory>
    requires sound { Sound flat.now }
    requires fits { FitsCell (length flat.now.ports.domains) flat.now.widths (Cut w a high low) }
    ensures { OnOk result (Adds flat.now nodes.old.items nodes.new.items
        (nodes_of flat.now (Cut w a high low))) }
{
    let width = width_of(flat, w);
    on_each(
        nodes,
        OneBit::Same,
        Word::Part(w, 0),
        Word::Part(a, low),
        width,
    )
}

// A choice.
fn mux(
    flat: &Flat,
    nodes: &mut Vec<BitNode>,
    w: WireId,
    c: WireId,
    a: WireId,
    b: WireId,
) -> Result<(), NoMemory>
    requires sound { Sound flat.now }
    requires fits { FitsCell (length flat.now.ports.domains) flat.now.widths (Mux w c a b) }
    ensures { OnOk result (Adds flat.now nodes.old.items nodes.new.items
        (nodes_of flat.now (Mux w c a b))) }
{
    let width = width_of(flat, w);
    choices(nodes, w, c, a, b, width)
}

/// A cell.
pub(crate) fn cell_nodes(flat: &Flat, nodes: &mut Vec<BitNode>, cell: &Cell) -> Result<(), NoMemory>
    requires sound { Sound flat.now }
    requires fits { FitsCell (length flat.now.ports.domains) flat.now.widths cell.now }
    ensures { OnOk result (Adds flat.now nodes.old.items nodes.new.items
        (nodes_of flat.now cell.now)) }
{
    match cell {
        Cell::Const(w, bits) => constant(flat, nodes, *w, bits),
        Cell::Copy(w, a) => copy(flat, nodes, *w, *a),
        Cell::Join(w, parts) => join(flat, nodes, *w, parts.as_slice()),
        Cell::Cut(w, a, high, low) => cut(flat, nodes, *w, *a, *high, *low),
        Cell::Un(w, op, a) => unary(flat, nodes, *w, *op, *a),
        Cell::Bin(w, op, a, b) => binary(flat, nodes, *w, *op, *a, *b),
        Cell::Mux(w, c, a, b) => mux(flat, nodes, *w, *c, *a, *b),
        Cell::Reg(w, domain, initial, a) => register(flat, nodes, *w, *domain, initial, *a),
        Cell::Ram(w, domain, words, inputs) => {
            ram(flat, nodes, *w, *domain, words.as_slice(), inputs)
        }
        Cell::Use(_, _, _) => unreachable!(),
    }
}
