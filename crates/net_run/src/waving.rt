//! The waves of a run.
ghost use Rattle.std.specs.Prelude.{◌≤◌, length, IfOk};
ghost use Rattle.std.specs.List.{AllByRecursion};
ghost use Rattle.chw_base.specs.declared.limits.TheConstants.{EVENTS};
ghost use Rattle.chw_clock.specs.Histories.{FitsEvent};
ghost use Rattle.net_run.specs.Runs.{IsWaveRun};
ghost use Rattle.netlist.specs.Orders.{IsOrder};
ghost use Rattle.netlist.specs.Sound.{Sound};

use chw_base::NoMemory;
use chw_clock::Event;
use net_sim::Sim;
use netlist::{Flat, Order};
use std::alloc::Global;
use waves::VcdOut;

/// The waves of a flat net at these events, with the outputs just before the edges of each.
pub fn run_waves(
    alloc: Global,
    flat: &Flat,
    order: &Order,
    events: &[Event],
) -> Result<Vec<u8>, NoMemory>
    requires sound { Sound flat.now }
    requires order { IsOrder flat.now order.now.cells }
    requires fit { AllByRecursion (FitsEvent flat.now.ports) events.now }
    requires few { length events.now ≤ EVENTS }
    ensures { IfOk result (λ text. IsWaveRun flat.now events.now text.items) }
{
    let mut sim = Sim::open(alloc, flat, order)?;
    let mut out = VcdOut::open(alloc, &flat.ports)?;
    for present in events {
        sim.inputs(present);
        out.event(alloc, present, sim.outputs())?;
        sim.tick(present);
    }
    Ok(out.into_text())
}
