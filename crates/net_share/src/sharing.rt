//! The shared net of a flat net.
ghost use Rattle.std.specs.Prelude.{◌≡◌, ℕ, List, ◌∷◌, [], IfOk};
ghost use Rattle.net_rules.specs.PortsHold.{PortsHold};
ghost use Rattle.net_share.specs.Making.{IsPlan};
ghost use Rattle.net_share.specs.Sharing.{IsModuleBy, IsShared, IsSharedNet};
ghost use Rattle.netlist.specs.Orders.{IsOrder};
ghost use Rattle.netlist.specs.Sound.{Sound};
ghost use Rattle.wire_classes.specs.Classes.{AreClasses};

use crate::making::{made_cells, widths_after};
use crate::planning::{Plan, planned};
use crate::ports::copy_ports;
use crate::renaming::wires_after;
use chw_base::{NoMemory, Seq};
use netlist::laws::an_order_excludes_loops;
use netlist::{Flat, Module, Net, Order};
use share_laws::laws::{sharing_keeps_soundness, sharing_makes_no_loop};
use std::alloc::Global;
use wire_classes::{Classes, classes_of};

// The module of a flat net, shared by a plan.
fn module_by(alloc: Global, flat: &Flat, classes: &Classes, plan: &Plan) -> Result<Module, NoMemory>
    requires sound { Sound flat.now }
    requires classes { AreClasses flat.now classes.now }
    requires plan { IsPlan flat.now plan.now.kept.items plan.now.names.items }
    ensures { IfOk result
        (IsModuleBy flat.now classes.now plan.now.kept.items plan.now.names.items) }
{
    let inputs = flat.ports.inputs.len();
    let widths = widths_after(alloc, inputs, flat.widths.as_slice(), &plan.kept)?;
    let outputs = wires_after(alloc, &plan.names, flat.outputs.as_slice())?;
    let first = inputs as u32;
    let cells = made_cells(alloc, flat, classes, &plan.names, first, &plan.kept)?;
    Ok(Module {
        inputs: first,
        widths: Seq::from(widths),
        outputs,
        cells: Seq::from(cells),
    })
}

// A list of one module.
fn alone(alloc: Global, only: Module) -> Result<Seq<Module>, NoMemory>
    ensures { IfOk result (λ modules. modules ≡ only ∷ []) }
{
    let mut modules = Vec::new(alloc);
    modules.push(only)?;
    Ok(Seq::from(modules))
}

// The net of a flat net, shared by a plan.
fn net_by(alloc: Global, flat: &Flat, classes: &Classes, plan: &Plan) -> Result<Net, NoMemory>
    requires sound { Sound flat.now }
    requires classes { AreClasses flat.now classes.now }
    requires plan { IsPlan flat.now plan.now.kept.items plan.now.names.items }
    ensures { IfOk result (IsShared flat.now) }
{
    let ports = copy_ports(alloc, &flat.ports)?;
    let top = module_by(alloc, flat, classes, plan)?;
    let modules = alone(alloc, top)?;
    Ok(Net { ports, modules })
}

// The shared net, by the classes of equal wires.
fn shared_by(alloc: Global, flat: &Flat, classes: &Classes) -> Result<Net, NoMemory>
    requires sound { Sound flat.now }
    requires order { (places : List ℕ) × IsOrder flat.now places }
    requires classes { AreClasses flat.now classes.now }
    ensures { IfOk result (IsShared flat.now) }
{
    let plan = planned(alloc, flat, classes)?;
    net_by(alloc, flat, classes, &plan)
}

/// The shared net of a flat net, as one module: each wire is served by the one that stands for all
/// that are equal to it, and only what an output needs is kept.
pub fn share(alloc: Global, flat: &Flat, order: &Order) -> Result<Net, NoMemory>
    requires sound { Sound flat.now }
    requires order { IsOrder flat.now order.now.cells }
    requires ports { PortsHold flat.now.ports }
    ensures { IfOk result (IsSharedNet flat.now) }
{
    an_order_excludes_loops();
    sharing_keeps_soundness();
    sharing_makes_no_loop();
    let classes = classes_of(alloc, flat, order)?;
    shared_by(alloc, flat, &classes)
}
