//! Worked examples, as the contract of a call that does nothing.
ghost use Rattle.normal_forms.specs.BlockedExamples.{CycleBlocks, CounterIsFree, FunctionBlocks, WideBinding, LongVector};
ghost use Rattle.normal_forms.specs.Examples.{CounterIsCircuit, CounterIsNormal, TwoLifted, Constants, CaseOfBlocks, NoCycle, NoLambda, NoVariableBegins, OneTooMany, WidthHolds, WidthFails, WholeOfFirst, UsesItself};

/// Bodies in normal form.
pub fn of_forms()
    ensures counter { CounterIsCircuit }
    ensures normal { CounterIsNormal }
    ensures lifted { TwoLifted }
    ensures constants { Constants }
    ensures blocks { CaseOfBlocks }
{}

/// Bodies that aren't.
pub fn of_other_forms()
    ensures cycle { NoCycle }
    ensures lambda { NoLambda }
    ensures begins { NoVariableBegins }
    ensures lifted { OneTooMany }
{}

/// Widths that are within the limits, and one that isn't.
pub fn of_widths()
    ensures within { WidthHolds }
    ensures over { WidthFails }
{}

/// A made definition as a whole, and one that uses itself.
pub fn of_uses()
    ensures whole { WholeOfFirst }
    ensures itself { UsesItself }
{}

/// Places that are blocked, and one that isn't.
pub fn of_blocked_places()
    ensures cycle { CycleBlocks }
    ensures counter { CounterIsFree }
    ensures function { FunctionBlocks }
    ensures scalar { WideBinding }
    ensures length { LongVector }
{}
