//! Worked examples of the bits of wires and of operators, each as the contract of a call that does nothing.
ghost use Rattle.netlist.specs.Examples.{Accumulates, Arithmetic, BitByBit, Comparisons, Crosses, Parts, Reductions, Remembers, RemembersThroughAReset, ResetsInARow, Restarts, Shifts, Swaps};

/// What operators give for bytes, and what joins, cuts and choices give.
pub fn of_operators()
    ensures arithmetic { Arithmetic }
    ensures bits { BitByBit }
    ensures comparisons { Comparisons }
    ensures shifts { Shifts }
    ensures reductions { Reductions }
    ensures parts { Parts }
{}

/// Registers: a sum, a sum with resets, and registers of two domains.
pub fn of_registers()
    ensures sum { Accumulates }
    ensures reset { Restarts }
    ensures resets { ResetsInARow }
    ensures crossing { Crosses }
    ensures swapping { Swaps }
{}

/// A RAM of five words, in one domain and beside another one with a reset.
pub fn of_rams()
    ensures words { Remembers }
    ensures reset { RemembersThroughAReset }
{}
