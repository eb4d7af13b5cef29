//! The cells of a flat net as a graph: each refers to those that drive the wires that it waits for.
ghost use Rattle.std.specs.Prelude.{◌≡◌};
ghost use Rattle.netlist.specs.Waits.{driving_place, waits};

use crate::net::Cell;
use graph_order::Graph;

// The place of the cell that drives a wire, where so many wires are inputs. For an input it is past all cells.
fn place_of(inputs: u32, wire: u32) -> u32
    ensures { result ≡ driving_place inputs wire }
{
    if wire < inputs {
        u32::MAX
    } else {
        wire - inputs
    }
}

/// The cells of a flat net, which drive the wires after the inputs in order.
#[derive(Drop)]
pub(crate) struct Waits<'a> {
    pub inputs: u32,
    pub cells: &'a [Cell],
}

impl<'a> Graph for Waits<'a> {
    ghost lists = { λ it. waits it.inputs it.cells.now };

    fn node_count(&self) -> usize {
        self.cells.len()
    }

    fn degree(&self, node: u32) -> usize {
        match self.cells.get(node as usize) {
            Some(cell) => cell.awaited_len(),
            None => 0,
        }
    }

    fn reference(&self, node: u32, left: usize) -> Option<u32> {
        let cell = self.cells.get(node as usize)?;
        let wire = cell.awaited(left - 1)?;
        Some(place_of(self.inputs, wire.number))
    }
}
