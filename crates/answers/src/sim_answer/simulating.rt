//! The lines of a program that is simulated by a stimulus.
ghost use Rattle.std.specs.Prelude.{◌≤◌, length, IfOk, OnOk};
ghost use Rattle.std.specs.List.{AllByRecursion};
ghost use Rattle.chw_base.specs.Outcome.{IfFault};
ghost use Rattle.chw_base.specs.declared.limits.TheConstants.{EVENTS};
ghost use Rattle.chw_clock.specs.Histories.{FitsEvent};
ghost use Rattle.chw_meaning.specs.Means.{HasPorts};
ghost use Rattle.chw_terms.specs.Tidy.{IsTidy};
ghost use Rattle.net_means.specs.Outputs.{NetMeans};
ghost use Rattle.netlist.specs.Orders.{IsOrder};
ghost use Rattle.netlist.specs.Sound.{Sound};
ghost use Rattle.answers.specs.SimAnswer.Simulation.{IsSimFault, IsSimulation, IsStimulus};
ghost use Rattle.answers.specs.SimAnswer.Types.{ShowsRun};
ghost use Rattle.stimulus.specs.Stimulus.{Stim};

use crate::sim_answer::fault::SimFault;
use crate::sim_answer::inputs::input_types;
use crate::sim_answer::places::line_of_event;
use crate::sim_answer::values::first_stranger;
use chw_base::{NoMemory, Or, Seq};
use chw_clock::{Event, Ports};
use chw_terms::Program;
use chw_typing::named_laws::data_types_in_order;
use chw_words::SimForm;
use layout_laws::laws::zero_exists;
use net_run::{run, run_waves};
use netlist::laws::a_wire_has_one_value;
use netlist::{Flat, Order};
use std::alloc::Global;
use stimulus::read_stimulus;

/// Whether the inputs of all events of a stimulus encode values of their types.
fn check_values(
    alloc: Global,
    program: &Program,
    ports: &Ports,
    text: &[u8],
    events: &[Event],
) -> Result<(), Or<SimFault>>
    requires tidy { IsTidy program.now }
    requires ports { HasPorts program.now ports.now }
    requires read { Stim text.now ports.now events.now }
    ensures stimulus { OnOk result (IsStimulus program.now text.now ports.now events.now) }
    ensures fault { IfFault result (IsSimFault program.now text.now) }
{
    data_types_in_order();
    let types = input_types(alloc, program)?;
    let found = first_stranger(alloc, events, &types, program.datas.as_slice());
    drop(types);
    match found? {
        Some(place) => {
            let line = line_of_event(alloc, text, ports, place)?;
            Err(Or::Fault(SimFault::Value { line }))
        }
        None => Ok(()),
    }
}

/// The events of a stimulus for a program's ports, with the fault that the text has else.
fn read_events(
    alloc: Global,
    program: &Program,
    ports: &Ports,
    text: &[u8],
) -> Result<Seq<Event>, Or<SimFault>>
    requires { HasPorts program.now ports.now }
    ensures events { IfOk result (Stim text.now ports.now) }
    ensures fault { IfFault result (IsSimFault program.now text.now) }
{
    match read_stimulus(alloc, text, ports) {
        Ok(events) => Ok(events),
        Err(Or::Fault(fault)) => Err(Or::Fault(SimFault::Stimulus(fault))),
        Err(Or::Memory) => Err(Or::Memory),
    }
}

/// The events of a stimulus of values for a program, which has these ports.
///
/// A text that is no stimulus for the ports is refused by its first line that isn't taken; any other by its first line with bits that
/// encode no value of their input's type.
pub fn events_of(
    alloc: Global,
    program: &Program,
    ports: &Ports,
    text: &[u8],
) -> Result<Seq<Event>, Or<SimFault>>
    requires tidy { IsTidy program.now }
    requires ports { HasPorts program.now ports.now }
    ensures events { IfOk result (λ events. IsStimulus program.now text.now ports.now events) }
    ensures fault { IfFault result (IsSimFault program.now text.now) }
{
    let events = read_events(alloc, program, ports, text)?;
    check_values(alloc, program, ports, text, events.as_slice())?;
    Ok(events)
}

/// The outputs of a flat net at events, in this form.
fn run_in(
    alloc: Global,
    form: SimForm,
    flat: &Flat,
    order: &Order,
    events: &[Event],
) -> Result<Vec<u8>, NoMemory>
    requires sound { Sound flat.now }
    requires order { IsOrder flat.now order.now.cells }
    requires fit { AllByRecursion (FitsEvent flat.now.ports) events.now }
    requires few { length events.now ≤ EVENTS }
    ensures { IfOk result (λ text. ShowsRun form flat.now events.now text.items) }
{
    match form {
        SimForm::Lines => run(alloc, flat, order, events),
        SimForm::Waves => run_waves(alloc, flat, order, events),
    }
}

/// The lines, in a form, of what a program means at the events of a stimulus, as its flat net has
/// them.
///
/// A text that is no stimulus for the program's ports is refused by its first line that isn't taken; any other by its first line
/// with bits that encode no value of their input's type.
pub fn lines_of(
    alloc: Global,
    program: &Program,
    flat: &Flat,
    order: &Order,
    text: &[u8],
    form: SimForm,
) -> Result<Vec<u8>, Or<SimFault>>
    requires tidy { IsTidy program.now }
    requires sound { Sound flat.now }
    requires order { IsOrder flat.now order.now.cells }
    requires means { NetMeans program.now flat.now }
    ensures lines { IfOk result (λ lines. IsSimulation program.now form text.now lines.items) }
    ensures fault { IfFault result (IsSimFault program.now text.now) }
{
    zero_exists();
    a_wire_has_one_value();
    let events = events_of(alloc, program, &flat.ports, text)?;
    Ok(run_in(alloc, form, flat, order, events.as_slice())?)
}
