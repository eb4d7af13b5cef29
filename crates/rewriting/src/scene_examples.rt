//! Worked examples, each as the contract of a call that does nothing.
ghost use Rattle.rewriting.specs.SceneExamples.{TypedValue, TypedCircuit, NoLeadingLambda, UnnamedParameter, BoolInValues, NoBoolInCircuits, SignalInCircuits, NoSignalInValues, HoldsOne};

/// A value and a circuit that are typed; a term without a leading lambda; a made definition in a term.
pub fn of_made_definitions()
    ensures value { TypedValue }
    ensures circuit { TypedCircuit }
    ensures lambda { NoLeadingLambda }
    ensures made { HoldsOne }
{}

/// Which types are named in which mode.
pub fn of_names()
    ensures parameter { UnnamedParameter }
    ensures bool_named { BoolInValues }
    ensures bool_unnamed { NoBoolInCircuits }
    ensures signal_named { SignalInCircuits }
    ensures signal_unnamed { NoSignalInValues }
{}
