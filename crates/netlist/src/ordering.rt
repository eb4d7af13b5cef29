//! An order of the cells of a flat net, or a loop.
ghost use Rattle.std.specs.Prelude.{◌≡◌, ◌+◌, ◌<◌, ◌^◌, ◌++◌, All, length, drop, map, take, reverse, IfOk};
ghost use Rattle.chw_base.specs.Outcome.{IfFault};
ghost use Rattle.netlist.specs.Orders.{IsLoop, IsOrder, wire_numbers};
ghost use Rattle.netlist.specs.Sound.{Sound};

use crate::net::{Flat, Loop, Order};
use crate::waits::Waits;
use chw_base::{NoMemory, Or, Seq, WireId};
use graph_order::{Ordering, order_of};
use std::alloc::Global;

// The wires that the cells at these places drive, where so many wires are inputs.
fn wires_of(alloc: Global, inputs: u32, places: &[u32]) -> Result<Vec<WireId>, NoMemory>
    requires { All (λ place. inputs + place < 2 ^ 32) places.now }
    ensures { IfOk result (λ wires. wire_numbers wires.items ≡ map (λ place. inputs + place) places.now) }
{
    let mut wires = Vec::new(alloc);
    for place in places {
        wires.push(WireId {
            number: inputs + *place,
        })?;
    }
    Ok(wires)
}

// The wires of a cycle of cells in which each waits for the next, turned round, so that each wire feeds the next. The first stays the
// first.
fn turned_round(alloc: Global, inputs: u32, places: Vec<u32>) -> Result<Seq<WireId>, NoMemory>
    requires some { 0 < length places.items }
    requires fits { All (λ place. inputs + place < 2 ^ 32) places.items }
    ensures { IfOk result (λ cycle. wire_numbers cycle
        ≡ map (λ place. inputs + place) (reverse (drop 1 places.items ++ take 1 places.items))) }
{
    let mut places = places;
    places.rotate_left(1);
    places.reverse();
    let cycle = wires_of(alloc, inputs, &places)?;
    Ok(Seq::from(cycle))
}

/// An order of the cells of a flat net, or a loop of its wires. A net that has one hasn't the other.
pub fn order(alloc: Global, flat: &Flat) -> Result<Order, Or<Loop>>
    requires { Sound flat.now }
    ensures order { IfOk result (λ o. IsOrder flat.now o.cells) }
    ensures loop_ { IfFault result (λ l. IsLoop flat.now l.cycle) }
{
    let inputs = flat.ports.inputs.len() as u32;
    let graph = Waits {
        inputs,
        cells: flat.cells.as_slice(),
    };
    match order_of(alloc, &graph)? {
        Ordering::Order(places) => Ok(Order {
            cells: Seq::from(places),
        }),
        Ordering::Cycle(places) => Err(Or::Fault(Loop {
            cycle: turned_round(alloc, inputs, places)?,
        })),
    }
}
