//! What literals and numerals say.
ghost use Rattle.std.specs.Prelude.{◌≡◌, ◌+◌, ◌*◌, ◌-◌, ◌<◌, ◌^◌, ◌≤◌, length};
ghost use Rattle.std.specs.List.{prefix_len};
ghost use Rattle.chw_base.specs.Names.{is_digit};
ghost use Rattle.chw_base.specs.declared.limits.TheConstants.{LITERAL_VALUE_BITS, TYPE_NUMERAL_BITS};
ghost use Rattle.chw_grammar.specs.Literals.{number_of, within, letter, parts_of, literal_of};

use chw_lexer::is_digit;

/// The letter of a literal.
#[derive(Clone, Copy, Debug, PartialEq, Eq)]
pub enum Letter {
    /// `u`
    U,
    /// `s`
    S,
    /// `b`
    B,
}

/// The parts of a literal.
#[derive(Clone, Copy, Debug, PartialEq, Eq)]
pub struct Literal {
    /// Whether `-` stands first.
    pub negative: bool,
    /// The value without its sign, where it is below two to the 128.
    pub value: Option<u128>,
    pub letter: Letter,
    /// The width, where it is below two to the 32.
    pub width: Option<u32>,
}

/// The parts of a word that has the form of a literal.
///
/// Of another word, the value is the one of the digits at its front, and the width the one of all behind the byte after them.
pub fn read_literal(literal: &[u8]) -> Literal
    ensures { result ≡ literal_of literal.now }
{
    match literal {
        [b'-', unsigned @ ..] => read_unsigned(true, unsigned),
        _ => read_unsigned(false, literal),
    }
}

/// The number of a numeral, where it is below two to the 32.
pub fn read_numeral(digits: &[u8]) -> Option<u32>
    ensures { result ≡ within TYPE_NUMERAL_BITS (number_of digits.now) }
{
    match read_number(digits) {
        Some(number) if number < 0x1_0000_0000 => Some(number as u32),
        _ => None,
    }
}

/// The parts of a literal behind its sign, with that sign or without one.
fn read_unsigned(negative: bool, unsigned: &[u8]) -> Literal
    ensures { result ≡ parts_of negative unsigned.now }
{
    let len = value_len(unsigned);
    let (letter, width) = match &unsigned[len..] {
        [letter, width @ ..] => (letter_of(*letter), read_numeral(width)),
        [] => (Letter::U, Some(0)),
    };
    Literal {
        negative,
        value: read_number(&unsigned[..len]),
        letter,
        width,
    }
}

/// How many digits stand at the front.
fn value_len(unsigned: &[u8]) -> usize
    ensures len { result ≡ prefix_len is_digit unsigned.now }
    ensures within { result ≤ length unsigned.now }
{
    for (n, byte) in unsigned.iter().enumerate() {
        if !is_digit(*byte) {
            return n;
        }
    }
    unsigned.len()
}

/// The letter of this byte, which is `u` where it is neither `s` nor `b`.
fn letter_of(byte: u8) -> Letter
    ensures { result ≡ letter byte }
{
    match byte {
        b's' => Letter::S,
        b'b' => Letter::B,
        _ => Letter::U,
    }
}

/// The number of decimal digits, where it is below two to the 128.
fn read_number(digits: &[u8]) -> Option<u128>
    ensures { result ≡ within LITERAL_VALUE_BITS (number_of digits.now) }
{
    let mut number = 0;
    for digit in digits {
        number = with_digit(number, *digit)?;
    }
    Some(number)
}

/// The number with one more digit.
fn with_digit(number: u128, digit: u8) -> Option<u128>
    ensures { result ≡ within LITERAL_VALUE_BITS (number * 10 + (digit - 48)) }
{
    number
        .checked_mul(10)?
        .checked_add(digit.saturating_sub(b'0') as u128)
}
