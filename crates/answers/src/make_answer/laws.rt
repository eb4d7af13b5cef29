//! The laws of the stimulus and of tallies, each as the contract of a call that does nothing.
ghost use Rattle.answers.specs.MakeAnswer.Laws.{MadeStimuliAreRead, MadeStimuliAreValues, OneTally, SumsAreWhole};

use crate::compiled::laws::{one_compiled, one_count};
use crate::sim_answer::laws::one_meant;
use chw_bits::laws::{digits_read_back, length_of_made_bits};
use chw_layout::laws::encoding_width;
use chw_meaning::laws::at_most_one_meaning;
use stimulus::laws::one_stimulus;

/// The text of the stimulus is one of its events, for ports with the domains `A` and `B` and one input `x` of 16 bits; and one of values
/// for a program with such ports, if its input is a signal of scalars.
pub fn made_stimuli()
    ensures read { MadeStimuliAreRead }
    ensures values { MadeStimuliAreValues }
{
    digits_read_back();
    length_of_made_bits();
}

/// Of an output of at most 32 bits nothing of the sum is cut off.
pub fn sums_are_whole()
    ensures { SumsAreWhole }
{
    encoding_width();
}

/// A program and a text have one tally at most.
pub fn one_tally()
    ensures { OneTally }
{
    one_compiled();
    one_count();
    at_most_one_meaning();
    one_stimulus();
    one_meant();
}
