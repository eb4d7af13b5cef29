//! Worked examples, each as the contract of a call that does nothing.
ghost use Rattle.steady_laws.specs.Examples.{FunctionOfValues, CounterMoves, SampleStays};

/// A function of values is steady, a counter isn't, and the function on what the counter is at one event is.
pub fn of_steady()
    ensures function { FunctionOfValues }
    ensures counter { CounterMoves }
    ensures sample { SampleStays }
{}
