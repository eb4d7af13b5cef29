//! The parts of literals and the numbers of numerals.
use crate::names::put_found;
use chw_base::NoMemory;
use chw_grammar::{Letter, read_literal, read_numeral};
use itoa::Buffer;
use row_tables::put;

/// Writes the sign, the value, the letter and the width of a literal.
pub fn put_literal(text: &str, out: &mut Vec<u8>) -> Result<(), NoMemory> {
    let literal = read_literal(text.as_bytes());
    put(out, if literal.negative { "-" } else { "" })?;
    match literal.value {
        Some(value) => {
            let mut digits = Buffer::new();
            put(out, digits.format(value))?;
        }
        None => put(out, "none")?,
    }
    let letter = match literal.letter {
        Letter::U => " u ",
        Letter::S => " s ",
        Letter::B => " b ",
    };
    put_found(out, letter, literal.width)
}

/// Writes the number of a numeral.
pub fn put_numeral(text: &str, out: &mut Vec<u8>) -> Result<(), NoMemory> {
    put_found(out, "", read_numeral(text.as_bytes()))
}
