//! Worked examples, as the contract of a call that does nothing.
ghost use Rattle.chw_typing.specs.GroupExamples.{FirstReached, SecondReached, ThirdNotReached, AllExchanged, EachFreeOnce};

/// Which bindings of a group are reached from its body.
pub fn of_reached_bindings()
    ensures first { FirstReached }
    ensures second { SecondReached }
    ensures third { ThirdNotReached }
{}

/// Variables that change places, and variables that are free.
pub fn of_variables()
    ensures exchanged { AllExchanged }
    ensures free { EachFreeOnce }
{}
