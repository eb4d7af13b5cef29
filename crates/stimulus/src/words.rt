//! The words of a line: counts, names, and names with digits.
ghost use Rattle.std.specs.Prelude.{◌≡◌, ◌<◌, ◌≤◌, ◌↔◌, length, IsTrue, SomeIff};
ghost use Rattle.std.specs.Char.{digit_value};
ghost use Rattle.std.specs.Str.Parse.{digits_value, AllDigits};
ghost use Rattle.stimulus.specs.Stimulus.{IsCount, IsDomain};
ghost use Rattle.stimulus.specs.Words.{HasDigits, IsPair};

use crate::cut::{before, behind};
use name_forms::forms::{is_lower_word, is_upper};

/// The most digits of a count.
const COUNT_DIGITS: usize = 6;

/// Whether each byte is a digit in the radix.
fn are_digits(text: &[u8], radix: u32) -> bool
    requires { (2 ≤ radix) × (radix ≤ 36) }
    ensures { IsTrue result ↔ AllDigits radix text.now }
{
    for byte in text {
        if !char::from(*byte).is_digit(radix) {
            return false;
        }
    }
    true
}

/// The number of a decimal digit.
fn number_of_digit(byte: u8) -> u32
    requires { digit_value byte < 10 }
    ensures { result ≡ digit_value byte }
{
    char::from(byte).to_digit(10).unwrap_or(0)
}

/// The number of decimal digits.
fn number(digits: &[u8]) -> u32
    requires digits { AllDigits 10 digits.now }
    requires few { length digits.now ≤ 6 }
    ensures { result ≡ digits_value 10 digits.now }
{
    let mut number = 0;
    for digit in digits {
        number = number * 10 + number_of_digit(*digit);
    }
    number
}

/// The number of a count.
pub fn count(text: &[u8]) -> Option<u32>
    ensures { SomeIff result (IsCount text.now) (digits_value 10 text.now) }
{
    if text.len() > COUNT_DIGITS || !are_digits(text, 10) {
        return None;
    }
    let number = number(text);
    if number == 0 { None } else { Some(number) }
}

/// Whether it is a domain, with nothing or `!` behind its name.
pub fn is_domain(word: &[u8]) -> bool
    ensures { IsTrue result ↔ IsDomain word.now }
{
    is_upper(before(word, b'!')) && behind(word, b'!').is_empty()
}

/// Whether it is the name of an input, `=` and a text that isn't empty.
pub fn is_pair(word: &[u8]) -> bool
    ensures { IsTrue result ↔ IsPair word.now }
{
    is_lower_word(before(word, b'=')) && !behind(word, b'=').is_empty()
}

/// Whether what stands behind the `=` of a part is hexadecimal.
pub fn has_digits(part: &[u8]) -> bool
    ensures { IsTrue result ↔ HasDigits part.now }
{
    are_digits(behind(part, b'='), 16)
}
