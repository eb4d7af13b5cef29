//! Worked examples of nets of single bits, each as the contract of a call that does nothing.
ghost use Rattle.bit_laws.specs.Examples.{RegisterIsALatch, ShiftOfTwoBits, SumOfThreeBits};

/// A register of one bit, a sum of three bits and a shift of two.
pub fn of_cells()
    ensures register { RegisterIsALatch }
    ensures sum { SumOfThreeBits }
    ensures shift { ShiftOfTwoBits }
{}
