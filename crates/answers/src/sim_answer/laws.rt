//! The laws of simulations, each as the contract of a call that does nothing.
ghost use Rattle.answers.specs.SimAnswer.Laws.{HistoriesFit, NothingRefusesAStimulus, OneFault};
ghost use Rattle.answers.specs.SimAnswer.Laws.{OneMeant, OneSimulation, OutputsAreMeant};
ghost use Rattle.answers.specs.SimAnswer.Laws.{WavesAreRead};

use chw_layout::laws::{encoding_width, encodings};
use chw_meaning::laws::at_most_one_meaning;
use chw_norm::laws::last_states_are_typed;
use layout_laws::laws::zero_exists;
use net_means::net_fits::laws::ports_are_kept;
use netlist::laws::a_wire_has_one_value;
use stimulus::laws::{no_fault, one_fault, one_stimulus};
use wave_text::laws::{printed_waves_are_read, waves_have_the_values};

/// A program and a text have at most one simulation in a form.
pub fn one_simulation()
    ensures { OneSimulation }
{
    at_most_one_meaning();
    encodings();
    one_stimulus();
}

/// A program means one list of outputs at events.
pub fn one_meant()
    ensures { OneMeant }
{
    at_most_one_meaning();
    encodings();
}

/// A stimulus of values for a program isn't refused, and a text is refused for one fault.
pub fn refusals()
    ensures stimulus { NothingRefusesAStimulus }
    ensures one { OneFault }
{
    at_most_one_meaning();
    no_fault();
    one_fault();
}

/// The events up to each of a stimulus of values are a history of the program.
pub fn histories_fit()
    ensures { HistoriesFit }
{
    zero_exists();
}

/// The outputs of a net that has the bits of what a program means, at the events of a stimulus of values, are the bits of what the
/// program means at the histories up to them.
pub fn outputs_are_meant()
    ensures { OutputsAreMeant }
{
    zero_exists();
    a_wire_has_one_value();
}

/// The waves of a simulation are the text of a wave: at both times of each event it has the inputs
/// there, and the bits of what the program means at the outputs.
pub fn waves_are_read()
    ensures { WavesAreRead }
{
    last_states_are_typed();
    ports_are_kept();
    encoding_width();
    printed_waves_are_read();
    waves_have_the_values();
}
