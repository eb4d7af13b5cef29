//! A text has one answer.
ghost use Rattle.std.specs.Prelude.{◌≡◌, ℕ, List};
ghost use Rattle.chw_clock.specs.declared.event.Event.{Event};
ghost use Rattle.chw_clock.specs.declared.event.Ports.{Ports};
ghost use Rattle.stimulus.specs.Stimulus.{IsStimFault, Stim};
ghost use Rattle.stimulus.specs.declared.fault.StimFault.{StimFault};

/// A text is a stimulus of one list of events.
pub fn one_stimulus()
    ensures { (text : List ℕ) (ports : Ports) (a b : List Event)
        → Stim text ports a → Stim text ports b → a ≡ b }
{}

/// A text has one fault.
pub fn one_fault()
    ensures { (text : List ℕ) (ports : Ports) (a b : StimFault)
        → IsStimFault text ports a → IsStimFault text ports b → a ≡ b }
{}

/// A stimulus has no fault.
pub fn no_fault()
    ensures { (text : List ℕ) (ports : Ports) (events : List Event) (fault : StimFault)
        → Stim text ports events → IsStimFault text ports fault → ⊥ }
{}
