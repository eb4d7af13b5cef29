//! Texts in rows.
use crate::table::{Unread, put};
use chw_base::{Name, NoMemory, Or};
use itoa::Buffer;
use std::alloc::Global;

/// The bytes of a text.
///
/// `{{0a}}` in it is the byte with these hexadecimal digits, and `{{3 f#=f^;}}` is `f0=f1;f1=f2;f2=f3;`: what stands behind a number and a
/// space, so many times. In it `#` is how many times it stood there before, and `^` is one more.
pub fn bytes_of(alloc: Global, text: &str) -> Result<Vec<u8>, Or<Unread>> {
    let mut bytes = Vec::new(alloc);
    let mut parts = text.split("{{");
    if let Some(plain) = parts.next() {
        put(&mut bytes, plain)?;
    }
    for part in parts {
        let (marked, plain) = part.split_once("}}").ok_or(Or::Fault(Unread))?;
        put_marked(&mut bytes, marked)?;
        put(&mut bytes, plain)?;
    }
    Ok(bytes)
}

// Writes what stands between the braces.
fn put_marked(bytes: &mut Vec<u8>, marked: &str) -> Result<(), Or<Unread>> {
    let Some((times, piece)) = marked.split_once(' ') else {
        let byte = u8::from_str_radix(marked, 16).map_err(|_| Or::Fault(Unread))?;
        return Ok(bytes.push(byte)?);
    };
    let times = times.parse::<u32>().map_err(|_| Or::Fault(Unread))?;
    for number in 0..times {
        put_piece(bytes, piece, number)?;
    }
    Ok(())
}

// Writes a piece that stood so many times before.
fn put_piece(bytes: &mut Vec<u8>, piece: &str, number: u32) -> Result<(), NoMemory> {
    for byte in piece.as_bytes() {
        match *byte {
            b'#' => put_number(bytes, "", number)?,
            b'^' => put_number(bytes, "", number.saturating_add(1))?,
            plain => bytes.push(plain)?,
        }
    }
    Ok(())
}

/// Writes a sign and a number.
pub fn put_number(out: &mut Vec<u8>, sign: &str, number: u32) -> Result<(), NoMemory> {
    let mut digits = Buffer::new();
    put(out, sign)?;
    put(out, digits.format(number))
}

/// The words of a text, each between quotation marks.
pub fn words_of(alloc: Global, text: &str) -> Result<Vec<Name>, Or<Unread>> {
    let mut words = Vec::new(alloc);
    for (place, piece) in text.split('"').enumerate() {
        if place % 2 == 1 {
            words.push(Name::from(bytes_of(alloc, piece)?))?;
        }
    }
    Ok(words)
}

/// Writes bytes as `bytes_of` reads them: those that are no visible characters of ASCII by their digits.
pub fn put_bytes(out: &mut Vec<u8>, bytes: &[u8]) -> Result<(), NoMemory> {
    for byte in bytes {
        if *byte >= b' ' && *byte <= b'~' {
            out.push(*byte)?;
        } else {
            put(out, "{{")?;
            out.push(digit(*byte / 16))?;
            out.push(digit(*byte % 16))?;
            put(out, "}}")?;
        }
    }
    Ok(())
}

// The hexadecimal digit of a number below 16.
fn digit(number: u8) -> u8 {
    b"0123456789abcdef"
        .get(usize::from(number))
        .copied()
        .unwrap_or(b'?')
}
