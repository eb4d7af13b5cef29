//! Laws of the meaning, each as the contract of a call that does nothing.
ghost use Rattle.chw_meaning.specs.Laws.{MoreTurnsKeep, OneValue, OneForced, OneGiven, OnePorts, OneMeaning, SamplesStay, DataStay, ComputedIsSo, ForcedIsSo, ShownIsSo, GivenIsSo, PortsAreSo, FitIsSo, MeantIsSo, BetterReflexive, BetterTransitive, OneWidth, OneZero, ZeroBits, OneValueAtWidthZero};

use chw_layout::laws::{encoding_injective, encoding_width, encodings, measured_types};

/// In one environment and at one history a term has at most one value, and has it in one number of turns; so has a thunk; and on the
/// same inputs a term gives at most one data value at a leaf of its result.
pub fn at_most_one_value()
    ensures terms { OneValue }
    ensures thunks { OneForced }
    ensures given { OneGiven }
{}

/// A program has one list of ports, and at a history an output has at most one meaning: on the streams that the bits of the inputs
/// decode to, of which there is one list.
pub fn at_most_one_meaning()
    ensures ports { OnePorts }
    ensures meaning { OneMeaning }
{
    encoding_injective();
}

/// A value that a term has within some number of turns it has within more.
pub fn more_turns_keep()
    ensures { MoreTurnsKeep }
{}

/// A sample and a data value have the same value at every history.
pub fn samples_stay()
    ensures samples { SamplesStay }
    ensures values { DataStay }
{}

/// What the function that computes the meaning answers is so, value and turns; and so is what the examples show.
pub fn computed_is_so()
    ensures terms { ComputedIsSo }
    ensures thunks { ForcedIsSo }
    ensures shown { ShownIsSo }
{}

/// What the functions answer that compute what a term gives on inputs, the ports of a program, a history that fits them and the meaning
/// of an output, is so.
pub fn computed_meaning_is_so()
    ensures given { GivenIsSo }
    ensures ports { PortsAreSo }
    ensures fit { FitIsSo }
    ensures meaning { MeantIsSo }
{
    encodings();
    measured_types();
}

/// Every term is at least as good as itself, and what is at least as good as a better one is at least as good.
pub fn better()
    ensures reflexive { BetterReflexive }
    ensures transitive { BetterTransitive }
{}

/// A closed type has at most one width and at most one zero, whose bits are all zero; and a type of width 0 has one value.
pub fn widths()
    ensures width { OneWidth }
    ensures zero { OneZero }
    ensures zeros { ZeroBits }
    ensures empty { OneValueAtWidthZero }
{
    encodings();
    encoding_width();
    encoding_injective();
}
