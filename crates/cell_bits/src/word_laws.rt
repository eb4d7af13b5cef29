//! Laws of the cells of primitives on words, each as the contract of a call that does nothing.
ghost use Rattle.cell_bits.specs.WordExamples.{MovedByWord, SignExtended, SumOfTwo};
ghost use Rattle.cell_bits.specs.WordLaws.{OneOperand, TwoOperands};

/// The cells of a primitive give the bits of its value, where its operands have those of the words.
pub fn primitives_bear_values()
    ensures one { OneOperand }
    ensures two { TwoOperands }
{}

/// Cells of primitives, worked by hand.
pub fn word_examples()
    ensures sum { SumOfTwo }
    ensures extension { SignExtended }
    ensures shift { MovedByWord }
{}
