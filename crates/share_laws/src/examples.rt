//! Worked examples of equal wires and of a shared net, each as the contract of a call that does
//! nothing.
ghost use Rattle.share_laws.specs.Examples.{ChoiceIsFirst, CopiedCellStays, CopyGoes};
ghost use Rattle.share_laws.specs.Examples.{CountersDiffer, CountersStay, InitialsDiffer};
ghost use Rattle.share_laws.specs.Examples.{PipelinesAreSame, SumIsKnown};

/// Registers and operators that are equal, and registers that aren't.
pub fn of_registers()
    ensures same { PipelinesAreSame }
    ensures initials { InitialsDiffer }
{}

/// A sum of constants, and a choice by one.
pub fn of_constants()
    ensures sum { SumIsKnown }
    ensures choice { ChoiceIsFirst }
{}

/// A net with a copy, shared.
pub fn of_a_copy()
    ensures { CopyGoes }
{}

/// Two counters that are alike. No rule says that they are equal, and a shared net keeps both.
pub fn of_two_counters()
    ensures differ { CountersDiffer }
    ensures stay { CountersStay }
{}

/// A net with a copy before the cell that it copies and with a cell that no output needs, shared.
pub fn of_an_early_copy()
    ensures { CopiedCellStays }
{}
