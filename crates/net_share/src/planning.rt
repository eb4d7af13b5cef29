//! `Plan`, what is kept of a flat net, and the new numbers of its wires.
ghost use Rattle.std.specs.Prelude.{ℕ, List, IfOk};
ghost use Rattle.net_share.specs.Making.{IsPlan};
ghost use Rattle.net_share.specs.Standing.{AreServers};
ghost use Rattle.netlist.specs.Orders.{IsOrder};
ghost use Rattle.netlist.specs.Sound.{Sound};
ghost use Rattle.wire_classes.specs.Classes.{AreClasses};

use crate::needed::needed_wires;
use crate::numbering::{kept_wires, new_names, new_numbers};
use crate::standing::servers_of;
use chw_base::NoMemory;
use netlist::Flat;
use std::alloc::Global;
use wire_classes::Classes;

/// What is kept of a flat net: the needed wires that are no inputs, in order, and by wire the new
/// number of what serves it.
#[derive(Drop)]
pub(crate) struct Plan {
    pub kept: Vec<u32>,
    pub names: Vec<u32>,
}

// The plan, where it is known what serves each wire.
fn plan_by(alloc: Global, flat: &Flat, classes: &Classes, servers: &[u32]) -> Result<Plan, NoMemory>
    requires sound { Sound flat.now }
    requires classes { AreClasses flat.now classes.now }
    requires servers { AreServers flat.now servers.now }
    ensures { IfOk result (λ p. IsPlan flat.now p.kept.items p.names.items) }
{
    let inputs = flat.ports.inputs.len() as u32;
    let count = flat.widths.len() as u32;
    let marks = needed_wires(alloc, flat, classes, servers)?;
    let kept = kept_wires(alloc, inputs, &marks)?;
    let numbers = new_numbers(alloc, inputs, count, &kept)?;
    let names = new_names(alloc, &numbers, servers)?;
    Ok(Plan { kept, names })
}

/// What is kept of a flat net, by the classes of its equal wires.
pub(crate) fn planned(alloc: Global, flat: &Flat, classes: &Classes) -> Result<Plan, NoMemory>
    requires sound { Sound flat.now }
    requires order { (places : List ℕ) × IsOrder flat.now places }
    requires classes { AreClasses flat.now classes.now }
    ensures { IfOk result (λ p. IsPlan flat.now p.kept.items p.names.items) }
{
    let servers = servers_of(alloc, flat, classes)?;
    plan_by(alloc, flat, classes, &servers)
}
