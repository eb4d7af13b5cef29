//! The laws of runs. Each is a function that does nothing, and says its law of all texts.
ghost use Rattle.std.specs.Prelude.{◌≡◌, ℕ, List};
ghost use Rattle.chw_clock.specs.declared.event.Event.{Event};
ghost use Rattle.netlist.specs.Sound.{Sound};
ghost use Rattle.netlist.specs.declared.net.Flat.{Flat};
ghost use Rattle.run_answer.specs.Circuits.{CanRun, HasFlat, IsCircuitFault, IsRunBy};
ghost use Rattle.run_answer.specs.declared.fault.CircuitFault.{CircuitFault};
ghost use Rattle.stimulus.specs.Stimulus.{IsStimFault, Stim};
ghost use Rattle.stimulus.specs.declared.fault.StimFault.{StimFault};

use net_flat::laws::one_flat_net;
use netlist::laws::a_wire_has_one_value;
use stimulus::laws::{no_fault, one_stimulus};
use verilog_rules::laws::no_text_is_both;
use verilog_text::laws::one_net;

/// A text has at most one flat net.
pub fn one_flat_net_of_a_text()
    ensures { (text : List ℕ) (a b : Flat) → HasFlat text a → HasFlat text b → a ≡ b }
{
    one_net();
    one_flat_net();
}

/// Nothing refuses a text that can be run, and nothing a stimulus for its ports.
pub fn nothing_refuses_a_run()
    ensures text { (text : List ℕ) (flat : Flat) (fault : CircuitFault) → CanRun text flat → IsCircuitFault text fault → ⊥ }
    ensures stimulus { (text stimulus : List ℕ) (flat other : Flat) (events : List Event) (fault : StimFault)
        → CanRun text flat → Stim stimulus flat.ports events → HasFlat text other → IsStimFault stimulus other.ports fault → ⊥ }
{
    one_net();
    one_flat_net();
    no_text_is_both();
    no_fault();
}

/// A sound flat net has one text of lines for a stimulus.
pub fn one_run()
    ensures { (flat : Flat) (text a b : List ℕ) → Sound flat → IsRunBy flat text a → IsRunBy flat text b → a ≡ b }
{
    one_stimulus();
    a_wire_has_one_value();
}
