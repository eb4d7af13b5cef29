//! The net of single bits that a flat net becomes.
ghost use Rattle.std.specs.Prelude.{◌≡◌, ◌++◌, ◌<◌, ◌≤◌, ◌^◌, length, map, IfOk, OnOk};
ghost use Rattle.std.specs.List.{flat_map};
ghost use Rattle.chw_base.specs.Outcome.{IfFault};
ghost use Rattle.netlist.specs.Sound.{Sound};
ghost use Rattle.bit_laws.specs.Blast.{blast, nodes_of, output_nodes};
ghost use Rattle.bit_nodes.specs.Standing.{bitnet_of, node_of};
ghost use Rattle.bit_blast.specs.Adding.{Adds};

use crate::cells::cell_nodes;
use crate::counting::node_count;
use crate::gates::OneBit;
use crate::limit::{BIT_NODES, TooMany};
use crate::names::{Word, width_of};
use crate::wiring::on_each;
use bit_nodes::BitNode;
use chw_base::{NoMemory, Or, Seq};
use netlist::Flat;
use std::alloc::Global;

// All cells, in order.
fn all_cells(flat: &Flat, nodes: &mut Vec<BitNode>) -> Result<(), NoMemory>
    requires { Sound flat.now }
    ensures { OnOk result (Adds flat.now nodes.old.items nodes.new.items
        (flat_map (nodes_of flat.now) flat.now.cells)) }
{
    for cell in flat.cells.as_slice() {
        cell_nodes(flat, nodes, cell)?;
    }
    Ok(())
}

// A buffer for each bit of the outputs, port by port.
fn all_outputs(flat: &Flat, nodes: &mut Vec<BitNode>) -> Result<(), NoMemory>
    requires sound { Sound flat.now }
    requires few { length flat.now.outputs < 2 ^ 32 }
    ensures { OnOk result (Adds flat.now nodes.old.items nodes.new.items
        (output_nodes flat.now flat.now.ports.outputs flat.now.outputs)) }
{
    let wires = flat.outputs.as_slice();
    for port in 0..wires.len() as u32 {
        let wire = wires[port as usize];
        let width = width_of(flat, wire);
        on_each(
            nodes,
            OneBit::Same,
            Word::Port(port),
            Word::Part(wire, 0),
            width,
        )?;
    }
    Ok(())
}

// The nodes of the cells and of the outputs.
fn all_nodes(alloc: Global, flat: &Flat) -> Result<Vec<BitNode>, NoMemory>
    requires sound { Sound flat.now }
    requires few { length flat.now.outputs < 2 ^ 32 }
    ensures { IfOk result (λ nodes. map (node_of flat.now) nodes.items ≡ (blast flat.now).nodes) }
{
    let mut nodes = Vec::new(alloc);
    all_cells(flat, &mut nodes)?;
    all_outputs(flat, &mut nodes)?;
    Ok(nodes)
}

/// The nodes of the net of single bits that a flat net becomes.
///
/// `TooMany` comes where there are more than `BIT_NODES`, before any memory is asked for.
pub fn blast(alloc: Global, flat: &Flat) -> Result<Seq<BitNode>, Or<TooMany>>
    requires { Sound flat.now }
    ensures nodes { IfOk result (λ nodes. bitnet_of flat.now nodes ≡ blast flat.now) }
    ensures few { IfOk result (λ nodes. length nodes ≤ BIT_NODES) }
    ensures many { IfFault result (λ _. BIT_NODES < length (blast flat.now).nodes) }
{
    if node_count(flat) > u64::from(BIT_NODES) {
        return Err(Or::Fault(TooMany));
    }
    let nodes = all_nodes(alloc, flat)?;
    Ok(Seq::from(nodes))
}
