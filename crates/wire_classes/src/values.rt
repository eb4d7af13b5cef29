//! The bits that wires have after one event.
ghost use Rattle.std.specs.Prelude.{◌≡◌, [], ◌∷◌, length, map, IfOk};
ghost use Rattle.chw_clock.specs.Histories.{FitsPorts};
ghost use Rattle.net_rules.specs.PortsHold.{PortsHold};
ghost use Rattle.net_sim.specs.Sims.{IsTable};
ghost use Rattle.netlist.specs.Orders.{IsOrder};
ghost use Rattle.netlist.specs.Sound.{Sound};
ghost use Rattle.wire_classes.specs.Closed.{ShowsKnown};
ghost use Rattle.wire_classes.specs.Partition.{table_of};

use chw_base::{DomId, NoMemory, Seq, WireId};
use chw_bits::Bits;
use chw_clock::{Event, Port, Ports};
use net_sim::Sim;
use netlist::laws::{a_wire_has_one_value, an_order_excludes_loops};
use netlist::{Flat, Order};
use share_laws::laws::{same_wires_are_as_wide, same_wires_have_one_value};
use std::alloc::Global;

// Bits of the inputs' widths.
fn some_inputs(alloc: Global, ports: &[Port]) -> Result<Vec<Bits>, NoMemory>
    ensures { IfOk result (λ v. map length v.items ≡ map (λ port. port.width) ports.now) }
{
    let mut inputs = Vec::new(alloc);
    for port in ports {
        let bits = vec![in alloc; false; port.width as usize]?;
        inputs.push(Bits::of_list(bits))?;
    }
    Ok(inputs)
}

// An event of the ports, at which the first domain ticks.
fn some_event(alloc: Global, ports: &Ports) -> Result<Event, NoMemory>
    requires { PortsHold ports.now }
    ensures { IfOk result (λ event. FitsPorts ports.now (event ∷ [])) }
{
    let inputs = some_inputs(alloc, ports.inputs.as_slice())?;
    let first = DomId { number: 0 };
    Ok(Event {
        ticks: Seq::from(vec![in alloc; first]?),
        resets: Seq::from(Vec::new(alloc)),
        inputs: Seq::from(inputs),
    })
}

// The bits of all wires.
fn all_bits(alloc: Global, sim: &Sim<'_>, count: u32) -> Result<Vec<Bits>, NoMemory>
    requires table { IsTable sim.now }
    requires count { count ≡ length sim.now.flat.now.widths }
    ensures { IfOk result (λ v. v.items ≡ table_of sim.now) }
{
    let mut values = Vec::with_capacity(alloc, count as usize)?;
    for number in 0..count {
        values.push(sim.bits(alloc, WireId { number })?)?;
    }
    Ok(values)
}

/// Bits of all wires, among which are the known bits.
pub(crate) fn shown_values(alloc: Global, flat: &Flat, order: &Order) -> Result<Vec<Bits>, NoMemory>
    requires sound { Sound flat.now }
    requires order { IsOrder flat.now order.now.cells }
    requires ports { PortsHold flat.now.ports }
    ensures { IfOk result (λ v. ShowsKnown flat.now v.items) }
{
    an_order_excludes_loops();
    a_wire_has_one_value();
    same_wires_are_as_wide();
    same_wires_have_one_value();
    let event = some_event(alloc, &flat.ports)?;
    let mut sim = Sim::open(alloc, flat, order)?;
    sim.inputs(&event);
    all_bits(alloc, &sim, flat.widths.len() as u32)
}
