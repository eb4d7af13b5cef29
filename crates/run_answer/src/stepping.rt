//! The lines of a circuit that is stepped by a stimulus.
ghost use Rattle.std.specs.Prelude.{IfOk};
ghost use Rattle.chw_base.specs.Outcome.{IfFault};
ghost use Rattle.run_answer.specs.Circuits.{CanStep, IsRunBy};
ghost use Rattle.stimulus.specs.Stimulus.{IsStimFault};

use crate::circuit::Circuit;
use chw_base::Or;
use net_run::run;
use std::alloc::Global;
use stimulus::{StimFault, read_stimulus};

/// The lines of the circuit's outputs at the events of a stimulus.
///
/// A text that is no stimulus for the circuit's ports is refused by its first line that isn't taken.
pub fn lines_of(alloc: Global, circuit: &Circuit, text: &[u8]) -> Result<Vec<u8>, Or<StimFault>>
    requires { CanStep circuit.now }
    ensures lines { IfOk result (λ lines. IsRunBy circuit.now.flat text.now lines.items) }
    ensures fault { IfFault result (IsStimFault text.now circuit.now.flat.ports) }
{
    let events = read_stimulus(alloc, text, &circuit.flat.ports)?;
    Ok(run(alloc, &circuit.flat, &circuit.order, events.as_slice())?)
}
