//! The wires and cells of a flat net, instance by instance.
ghost use Rattle.std.specs.Prelude.{◌≡◌, ◌+◌, ◌<◌, ◌≤◌, ◌++◌, ◌^◌, [], length, reverse, IfOk};
ghost use Rattle.chw_base.specs.declared.limits.TheConstants.{FLAT_WIRES};
ghost use Rattle.net_flat.specs.Entering.{Entered, FitsWhole, IsWhole, Sized};
ghost use Rattle.net_flat.specs.Flattened.{widths_in};
ghost use Rattle.net_flat.specs.Instances.{IsPlaced, input_copies};

use crate::instances::{Instance, uses};
use crate::tables::{push_own, table};
use chw_base::{ModId, NoMemory, Seq, WireId};
use netlist::{Cell, Net};
use std::alloc::Global;

/// The widths of flat wires and the flat cells so far, and the instances whose own are still to come, the first one last.
#[derive(Drop)]
pub(crate) struct Parts {
    pub widths: Vec<u32>,
    pub cells: Vec<Cell>,
    pub waiting: Vec<Instance>,
}

// Pushes the copies of what the inputs read from the first flat wire of an instance on.
fn push_inputs(cells: &mut Vec<Cell>, base: u32, reads: &[WireId]) -> Result<(), NoMemory>
    requires { base + length reads.now < 2 ^ 32 }
    ensures { IfOk result (λ _. cells.new.items ≡ cells.old.items ++ input_copies base reads.now) }
{
    for (j, r) in reads.iter().enumerate() {
        let number = base + j as u32;
        cells.push(Cell::Copy(WireId { number }, *r))?;
    }
    Ok(())
}

// Pushes instances so that the first one is the last.
fn push_waiting(waiting: &mut Vec<Instance>, instances: Vec<Instance>) -> Result<(), NoMemory>
    ensures { IfOk result (λ _. waiting.new.items ≡ waiting.old.items ++ reverse instances.items) }
{
    let mut instances = instances;
    while let Some(instance) = instances.pop() {
        waiting.push(instance)?;
    }
    Ok(())
}

// Pushes the wires and cells of an instance, and those that it uses wait.
fn enter(
    alloc: Global,
    net: &Net,
    sizes: &[u32],
    x: &Instance,
    parts: &mut Parts,
) -> Result<(), NoMemory>
    requires sized { Sized net.now sizes.now }
    requires placed { IsPlaced net.now x.now }
    requires within { x.now.base + length (widths_in net.now x.now.module.number) ≤ FLAT_WIRES }
    ensures { IfOk result (λ _. Entered net.now sizes.now x.now parts.old parts.new) }
{
    let m = &net.modules.as_slice()[x.module.number as usize];
    parts.widths.extend_from_slice(m.widths.as_slice())?;
    push_inputs(&mut parts.cells, x.base, x.reads.as_slice())?;
    let table = table(alloc, net, sizes, x, m)?;
    push_own(alloc, x.base, m, &table, &mut parts.cells)?;
    let uses = uses(alloc, sizes, x.base, m)?;
    push_waiting(&mut parts.waiting, uses)?;
    Ok(())
}

// The last module of a net as an instance that reads nothing.
fn top(alloc: Global, net: &Net) -> Instance
    requires some { 1 ≤ length net.now.modules }
    requires few { length net.now.modules < 2 ^ 32 }
    ensures placed { IsPlaced net.now result }
    ensures last { result.module.number + 1 ≡ length net.now.modules }
    ensures base { result.base ≡ 0 }
    ensures reads { result.reads ≡ [] }
{
    let number = net.modules.len() as u32 - 1;
    Instance {
        module: ModId { number },
        base: 0,
        reads: Seq::from(Vec::new(alloc)),
    }
}

/// The widths of the flat wires of a net, and its flat cells.
pub(crate) fn parts_of(alloc: Global, net: &Net, sizes: &[u32]) -> Result<Parts, NoMemory>
    requires sized { Sized net.now sizes.now }
    requires within { FitsWhole net.now }
    ensures { IfOk result (λ parts. IsWhole net.now parts) }
{
    let mut parts = Parts {
        widths: Vec::new(alloc),
        cells: Vec::new(alloc),
        waiting: Vec::new(alloc),
    };
    let first = top(alloc, net);
    enter(alloc, net, sizes, &first, &mut parts)?;
    while let Some(x) = parts.waiting.pop() {
        enter(alloc, net, sizes, &x, &mut parts)?;
    }
    Ok(parts)
}
