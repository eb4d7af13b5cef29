//! The classes of a flat net's wires.
ghost use Rattle.std.specs.Prelude.{◌≡◌, false, replicate, IfOk, OnOk};
ghost use Rattle.net_rules.specs.PortsHold.{PortsHold};
ghost use Rattle.netlist.specs.Orders.{IsOrder};
ghost use Rattle.netlist.specs.Sound.{Sound};
ghost use Rattle.wire_classes.specs.Classes.{AreClasses};
ghost use Rattle.wire_classes.specs.Closed.{AreClosed, AreFound};
ghost use Rattle.wire_classes.specs.Partition.{AreOwn};

use crate::classes::Classes;
use crate::search::search;
use crate::steps::close;
use crate::values::shown_values;
use chw_base::{NoMemory, Seq};
use chw_bits::Bits;
use netlist::{Flat, Order};
use std::alloc::Global;

// For so many wires, the number of each.
fn own_labels(alloc: Global, count: u32) -> Result<Vec<u32>, NoMemory>
    ensures { IfOk result (λ v. AreOwn count v.items) }
{
    let mut labels = Vec::with_capacity(alloc, count as usize)?;
    for w in 0..count {
        labels.push(w)?;
    }
    Ok(labels)
}

// So many wires, none of which is marked.
fn no_marks(alloc: Global, count: usize) -> Result<Vec<bool>, NoMemory>
    ensures { IfOk result (λ v. v.items ≡ replicate count false) }
{
    Ok(vec![in alloc; false; count]?)
}

// Finds labels and marks from which nothing more follows.
fn find_all(
    alloc: Global,
    flat: &Flat,
    order: &Order,
    of: &mut [u32],
    known: &mut [bool],
    values: &[Bits],
) -> Result<(), NoMemory>
    requires { AreFound flat.now of.old known.old values.now }
    ensures found { OnOk result (AreFound flat.now of.new known.new values.now) }
    ensures closed { OnOk result (AreClosed flat.now of.new known.new values.now) }
{
    search(alloc, flat, order, of, known, values)?;
    close(alloc, flat, of, known, values)
}

/// The classes of equal wires of a sound flat net, with an order of its cells, whose ports hold.
pub fn classes_of(alloc: Global, flat: &Flat, order: &Order) -> Result<Classes, NoMemory>
    requires sound { Sound flat.now }
    requires order { IsOrder flat.now order.now.cells }
    requires ports { PortsHold flat.now.ports }
    ensures { IfOk result (λ c. AreClasses flat.now c) }
{
    let values = shown_values(alloc, flat, order)?;
    let mut of = own_labels(alloc, flat.widths.len() as u32)?;
    let mut known = no_marks(alloc, flat.widths.len())?;
    find_all(alloc, flat, order, &mut of, &mut known, &values)?;
    Ok(Classes {
        of: Seq::from(of),
        known: Seq::from(known),
        bits: Seq::from(values),
    })
}
