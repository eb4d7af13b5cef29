//! Nets, and what is left of them where equal wires are shared.
ghost use Rattle.net_rules.specs.PortsHold.{PortsHold};
ghost use Rattle.net_rules.specs.WellFormed.{WellFormed};
ghost use Rattle.netlist.specs.Sound.{Sound};

use crate::flat::{net_in, put_parts, put_wires};
use chw_base::{NoMemory, Or};
use net_flat::flatten::flatten;
use net_rules::well_formed::well_formed;
use net_share::share;
use netlist::ordering::order;
use netlist::{Flat, Module, Net};
use row_tables::{Unread, put};
use std::alloc::Global;

/// Writes the shared net of a net: how many wires it has, its cells, and behind `;` the wires of
/// its outputs. Or it writes that the net has a loop.
pub(crate) fn put_shared(alloc: Global, text: &str, out: &mut Vec<u8>) -> Result<(), Or<Unread>> {
    let net = net_in(alloc, text)?;
    match well_formed(alloc, &net) {
        Ok(()) => put_shared_of(alloc, &net, out),
        Err(Or::Memory) => Err(Or::Memory),
        Err(Or::Fault(_)) => Err(Or::Fault(Unread)),
    }
}

fn put_shared_of(alloc: Global, net: &Net, out: &mut Vec<u8>) -> Result<(), Or<Unread>>
    requires { WellFormed net.now }
{
    match flatten(alloc, net) {
        Ok(flat) => put_shared_flat(alloc, &flat, out),
        Err(Or::Memory) => Err(Or::Memory),
        Err(Or::Fault(_)) => Err(Or::Fault(Unread)),
    }
}

fn put_shared_flat(alloc: Global, flat: &Flat, out: &mut Vec<u8>) -> Result<(), Or<Unread>>
    requires sound { Sound flat.now }
    requires ports { PortsHold flat.now.ports }
{
    match order(alloc, flat) {
        Ok(order) => Ok(put_net(out, &share(alloc, flat, &order)?)?),
        Err(Or::Memory) => Err(Or::Memory),
        Err(Or::Fault(_)) => Ok(put(out, "loop")?),
    }
}

fn put_net(out: &mut Vec<u8>, net: &Net) -> Result<(), NoMemory> {
    for module in net.modules.as_slice() {
        put_module(out, module)?;
    }
    Ok(())
}

fn put_module(out: &mut Vec<u8>, module: &Module) -> Result<(), NoMemory> {
    put_parts(out, module.widths.len(), module.cells.as_slice())?;
    put(out, ";")?;
    put_wires(out, module.outputs.as_slice())
}
