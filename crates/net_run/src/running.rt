//! The lines of a run.
ghost use Rattle.std.specs.Prelude.{◌≤◌, length, IfOk};
ghost use Rattle.std.specs.List.{AllByRecursion};
ghost use Rattle.chw_base.specs.declared.limits.TheConstants.{EVENTS};
ghost use Rattle.chw_clock.specs.Histories.{FitsEvent};
ghost use Rattle.net_run.specs.Runs.{IsRun};
ghost use Rattle.netlist.specs.Orders.{IsOrder};
ghost use Rattle.netlist.specs.Sound.{Sound};

use chw_base::NoMemory;
use chw_clock::Event;
use net_sim::Sim;
use netlist::{Flat, Order};
use std::alloc::Global;
use stimulus::print_line;

/// The lines of a flat net at these events: for each one the outputs just before its edges.
pub fn run(alloc: Global, flat: &Flat, order: &Order, events: &[Event]) -> Result<Vec<u8>, NoMemory>
    requires sound { Sound flat.now }
    requires order { IsOrder flat.now order.now.cells }
    requires fit { AllByRecursion (FitsEvent flat.now.ports) events.now }
    requires few { length events.now ≤ EVENTS }
    ensures { IfOk result (λ text. IsRun flat.now events.now text.items) }
{
    let mut sim = Sim::open(alloc, flat, order)?;
    let mut lines = Vec::new(alloc);
    for (number, event) in events.iter().enumerate() {
        sim.inputs(event);
        print_line(
            alloc,
            number as u32,
            &flat.ports,
            event,
            sim.outputs(),
            &mut lines,
        )?;
        sim.tick(event);
    }
    Ok(lines)
}
