//! The flat net of a net.
ghost use Rattle.std.specs.Prelude.{◌≡◌, ℕ, ◌+◌, ◌<◌, ◌≤◌, length, IfOk};
ghost use Rattle.chw_base.specs.Outcome.{IfFault};
ghost use Rattle.chw_base.specs.declared.limits.TheConstants.{FLAT_WIRES};
ghost use Rattle.net_rules.specs.WellFormed.{WellFormed};
ghost use Rattle.netlist.specs.Sound.{Sound};
ghost use Rattle.net_flat.specs.Entering.{FitsWhole, Sized};
ghost use Rattle.net_flat.specs.Flattened.{IsFlatOf, widths_in};

use crate::copies::{copy_items, copy_ports};
use crate::parts::{Parts, parts_of};
use crate::sizes::sizes;
use chw_base::limits::FLAT_WIRES;
use chw_base::{NoMemory, Or, Seq};
use netlist::{Flat, Net};
use std::alloc::Global;
use thiserror::Error;

/// A net has more flat wires than the limit.
#[derive(Clone, Copy, Debug, PartialEq, Eq, Error)]
#[error("the net has too many wires")]
pub struct TooLarge;

// The flat net of a net that has no more flat wires than the limit.
fn flat_of(alloc: Global, net: &Net, sizes: &[u32]) -> Result<Flat, NoMemory>
    requires sized { Sized net.now sizes.now }
    requires fits { FitsWhole net.now }
    ensures flat { IfOk result (λ f. IsFlatOf net.now f) }
    ensures sound { IfOk result (λ f. Sound f) }
{
    let modules = net.modules.as_slice();
    let ports = copy_ports(alloc, &net.ports)?;
    let outputs = copy_items(alloc, &modules[modules.len() - 1].outputs)?;
    let Parts {
        widths,
        cells,
        waiting,
    } = parts_of(alloc, net, sizes)?;
    drop(waiting);
    Ok(Flat {
        ports,
        widths: Seq::from(widths),
        outputs,
        cells: Seq::from(cells),
    })
}

/// The flat net of a well formed net.
///
/// `TooLarge` comes where it would have more than `FLAT_WIRES` wires, before any memory is asked for but a number for each module.
pub fn flatten(alloc: Global, net: &Net) -> Result<Flat, Or<TooLarge>>
    requires { WellFormed net.now }
    ensures flat { IfOk result (λ f. IsFlatOf net.now f) }
    ensures sound { IfOk result (λ f. Sound f) }
    ensures within { IfOk result (λ f. length f.widths ≤ FLAT_WIRES) }
    ensures too_large { IfFault result (λ _.
        (i : ℕ) × (i + 1 ≡ length net.now.modules) × (FLAT_WIRES < length (widths_in net.now i))) }
{
    let sizes = sizes(alloc, net)?;
    if sizes[sizes.len() - 1] > FLAT_WIRES {
        return Err(Or::Fault(TooLarge));
    }
    Ok(flat_of(alloc, net, &sizes)?)
}
