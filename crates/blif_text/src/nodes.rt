//! The lines of nodes.
ghost use Rattle.std.specs.Prelude.{◌≡◌, ◌++◌, [], ◌∷◌, flat_map, map, OnOk};
ghost use Rattle.bit_laws.specs.Bitnet.{clock_of};
ghost use Rattle.bit_laws.specs.Bitnet.Node.{latch};
ghost use Rattle.bit_laws.specs.Blast.{gate_of};
ghost use Rattle.bit_laws.specs.Gates.{digit_of};
ghost use Rattle.bit_nodes.specs.Standing.{kind_of, name_of, node_of, reads_of};
ghost use Rattle.blif_text.specs.Pieces.{node_text};
ghost use Rattle.blif_text.specs.Printed.{statement_text};
ghost use Rattle.blif_text.specs.Statements.Statement.{latch_of, table_of};

use crate::names::put_clock;
use crate::pieces::put;
use crate::rows::put_rows;
use crate::words::{put_reads, put_word};
use bit_nodes::{BitGate, BitName, BitNode};
use chw_base::{DomId, NoMemory};
use netlist::Flat;
use std::alloc::Global;

/// Writes the line of a table's names.
fn put_names(out: &mut Vec<u8>, flat: &Flat, gate: BitGate, drives: BitName) -> Result<(), NoMemory>
    ensures { OnOk result (out.new.items ≡ out.old.items
        ++ statement_text (table_of (reads_of flat.now gate) (name_of flat.now drives))) }
{
    put(out, b".names")?;
    put_reads(out, flat, gate)?;
    put_word(out, flat, drives)?;
    put(out, b"\n")?;
    Ok(())
}

/// Writes the lines of a table.
fn put_table(
    alloc: Global,
    out: &mut Vec<u8>,
    flat: &Flat,
    gate: BitGate,
    drives: BitName,
) -> Result<(), NoMemory>
    ensures { OnOk result (out.new.items ≡ out.old.items ++ node_text
        (gate_of (kind_of flat.now gate) (reads_of flat.now gate) (name_of flat.now drives))) }
{
    put_names(out, flat, gate, drives)?;
    put_rows(alloc, out, flat, gate)?;
    Ok(())
}

/// Writes the end of a latch's line, with its initial bit.
fn put_initial(out: &mut Vec<u8>, initial: bool) -> Result<(), NoMemory>
    ensures { OnOk result (out.new.items
        ≡ out.old.items ++ 32 ∷ digit_of initial ∷ 10 ∷ []) }
{
    if initial {
        put(out, b" 1\n")
    } else {
        put(out, b" 0\n")
    }
}

/// Writes the line of a latch.
fn put_latch(
    out: &mut Vec<u8>,
    flat: &Flat,
    takes: BitName,
    drives: BitName,
    domain: DomId,
    initial: bool,
) -> Result<(), NoMemory>
    ensures { OnOk result (out.new.items ≡ out.old.items ++ node_text
        (latch (name_of flat.now takes) (name_of flat.now drives)
        (clock_of flat.now.ports domain) initial)) }
{
    put(out, b".latch")?;
    put_word(out, flat, takes)?;
    put_word(out, flat, drives)?;
    put(out, b" re ")?;
    put_clock(out, &flat.ports, domain)?;
    put_initial(out, initial)?;
    Ok(())
}

/// Writes the lines of a node.
fn put_node(alloc: Global, out: &mut Vec<u8>, flat: &Flat, node: BitNode) -> Result<(), NoMemory>
    ensures { OnOk result (out.new.items
        ≡ out.old.items ++ node_text (node_of flat.now node)) }
{
    match node {
        BitNode::Table { gate, drives } => put_table(alloc, out, flat, gate, drives),
        BitNode::Latch {
            takes,
            drives,
            domain,
            initial,
        } => put_latch(out, flat, takes, drives, domain, initial),
    }
}

/// Writes the lines of nodes.
pub fn put_nodes(
    alloc: Global,
    out: &mut Vec<u8>,
    flat: &Flat,
    nodes: &[BitNode],
) -> Result<(), NoMemory>
    ensures { OnOk result (out.new.items
        ≡ out.old.items ++ flat_map node_text (map (node_of flat.now) nodes.now)) }
{
    for node in nodes {
        put_node(alloc, out, flat, *node)?;
    }
    Ok(())
}
