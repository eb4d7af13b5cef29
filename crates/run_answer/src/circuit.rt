//! The circuit of a text: its flat net, with an order of the cells.
ghost use Rattle.std.specs.Prelude.{IfOk};
ghost use Rattle.chw_base.specs.Outcome.{IfFault};
ghost use Rattle.netlist.specs.Sound.{Sound};
ghost use Rattle.run_answer.specs.Circuits.{HasFewWires, HasFlat, IsCircuitFault, IsCircuitOf};
ghost use Rattle.verilog_text.specs.VText.{VText};

use crate::fault::CircuitFault;
use chw_base::Or;
use net_flat::TooLarge;
use net_flat::flatten::flatten;
use netlist::laws::an_order_excludes_loops;
use netlist::ordering::order;
use netlist::{Flat, Loop, Net, Order};
use std::alloc::Global;
use verilog_read::read;

/// A flat net, with an order of its cells.
#[derive(Debug, Drop)]
pub struct Circuit {
    pub flat: Flat,
    pub order: Order,
}

/// The net that the text denotes.
fn net_of(alloc: Global, text: &[u8]) -> Result<Net, Or<CircuitFault>>
    ensures net { IfOk result (VText text.now) }
    ensures fault { IfFault result (IsCircuitFault text.now) }
{
    match read(alloc, text) {
        Ok(net) => Ok(net),
        Err(Or::Fault(fault)) => Err(Or::Fault(CircuitFault::Text(fault))),
        Err(Or::Memory) => Err(Or::Memory),
    }
}

/// The flat net of the text, where it has no more wires than the limit.
fn flat_of(alloc: Global, text: &[u8]) -> Result<Flat, Or<CircuitFault>>
    ensures flat { IfOk result (HasFlat text.now) }
    ensures few { IfOk result (λ flat. HasFewWires flat) }
    ensures sound { IfOk result (λ flat. Sound flat) }
    ensures fault { IfFault result (IsCircuitFault text.now) }
{
    let net = net_of(alloc, text)?;
    match flatten(alloc, &net) {
        Ok(flat) => Ok(flat),
        Err(Or::Fault(TooLarge)) => Err(Or::Fault(CircuitFault::TooLarge)),
        Err(Or::Memory) => Err(Or::Memory),
    }
}

/// The circuit of a Verilog text.
///
/// A text that gives none is refused by the rule that it breaks, then for its size, then for a loop.
pub fn circuit_of(alloc: Global, text: &[u8]) -> Result<Circuit, Or<CircuitFault>>
    ensures circuit { IfOk result (IsCircuitOf text.now) }
    ensures fault { IfFault result (IsCircuitFault text.now) }
{
    an_order_excludes_loops();
    let flat = flat_of(alloc, text)?;
    match order(alloc, &flat) {
        Ok(order) => Ok(Circuit { flat, order }),
        Err(Or::Fault(Loop { cycle })) => Err(Or::Fault(CircuitFault::Loop(cycle))),
        Err(Or::Memory) => Err(Or::Memory),
    }
}
