//! A worked example, as the contract of a call that does nothing.
ghost use Rattle.data_kinds.specs.Examples.{LoopHasTwoKinds};

/// A data type that refers to itself may have either kind: so `one_way` holds only where there is no cycle.
pub fn of_a_cycle()
    ensures { LoopHasTwoKinds }
{}
