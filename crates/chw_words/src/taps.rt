//! Numbers of taps, of the filter that a command makes.
ghost use Rattle.std.specs.Prelude.{ℕ, MatchOption};
ghost use Rattle.chw_words.specs.Commands.{IsTaps};

use crate::number::read_number;

/// The most digits of a number of taps.
pub const TAP_DIGITS: usize = 2;
/// The most taps.
pub const MOST_TAPS: u32 = 64;

/// The number of taps that a word is: one or two decimal digits, and from 1 to 64.
pub fn read_taps(word: &str) -> Option<u32>
    ensures { MatchOption result ((n : ℕ) → IsTaps word.now n → ⊥) (IsTaps word.now) }
{
    match read_number(word, TAP_DIGITS, MOST_TAPS) {
        Some(taps) if taps >= 1 => Some(taps),
        _ => None,
    }
}
