//! Rows of bits, each with the bits that a call gives, their number and their digits.
//!
//! `number WIDTH NUMBER`, `digits WIDTH DIGITS`, `list BITS`, `copy BITS`, `join BITS BITS` and `cut HIGH LOW BITS` give bits.
//! `put NUMBER BITS` gives these bits made the lowest of the number, as many as they are.
//! `same WIDTH NUMBER BITS` gives whether the bits of the number are these, and `hex BITS` their digits alone.
//! A call of `chw_bits::machine`, with its numbers in their order, gives a number: `signed_down WIDTH A PLACES`, for example.
#![tactic(auto)]

mod machine;

use chw_base::{NoMemory, Or};
use chw_bits::laws::digits_read_back;
use chw_bits::{Bits, DoesNotFit, HexFault};
use itoa::Buffer;
use row_tables::{Unread, print_rows, put};
use std::alloc::Global;
use std::io;

fn main(rt: HostRuntime) -> io::Result<()> {
    digits_read_back();
    print_rows(&rt, answer)
}

// Writes what a call gives.
fn answer(alloc: Global, call: &str, text: &str, out: &mut Vec<u8>) -> Result<(), Or<Unread>> {
    let (first, rest) = text.split_once(' ').unwrap_or((text, ""));
    match call {
        "number" => put_numbered(alloc, number(first)?, number(rest)?, out),
        "digits" => put_read(alloc, number(first)?, rest, out),
        "list" => Ok(put_all(alloc, &listed(alloc, text)?, out)?),
        "copy" => Ok(put_all(alloc, &listed(alloc, text)?.copy(alloc)?, out)?),
        "join" => put_joined(alloc, &listed(alloc, first)?, &listed(alloc, rest)?, out),
        "cut" => put_cut(alloc, number(first)?, rest, out),
        "put" => put_lowest(alloc, number(first)?, rest, out),
        "hex" => Ok(listed(alloc, text)?.put_hex(out)?),
        "same" => put_same(alloc, number(first)?, rest, out),
        _ => machine::answer(call, number(first)?, rest, out),
    }
}

fn number(text: &str) -> Result<u32, Or<Unread>> {
    match text.parse::<u32>() {
        Ok(number) => Ok(number),
        Err(_) => Err(Or::Fault(Unread)),
    }
}

// The bits of a text of the digits 0 and 1.
fn listed(alloc: Global, text: &str) -> Result<Bits, Or<Unread>> {
    let mut bits = Vec::new(alloc);
    for byte in text.as_bytes() {
        bits.push(*byte == b'1')?;
    }
    if bits.len() > 1_000 {
        return Err(Or::Fault(Unread));
    }
    Ok(Bits::of_list(bits))
}

fn put_numbered(
    alloc: Global,
    width: u32,
    number: u32,
    out: &mut Vec<u8>,
) -> Result<(), Or<Unread>> {
    match Bits::of_number(alloc, width, u128::from(number)) {
        Ok(bits) => Ok(put_all(alloc, &bits, out)?),
        Err(Or::Fault(DoesNotFit)) => Ok(put(out, "does not fit")?),
        Err(Or::Memory) => Err(Or::Memory),
    }
}

fn put_read(alloc: Global, width: u32, digits: &str, out: &mut Vec<u8>) -> Result<(), Or<Unread>> {
    match Bits::of_hex(alloc, width, digits.as_bytes()) {
        Ok(bits) => Ok(put_all(alloc, &bits, out)?),
        Err(Or::Fault(HexFault::NotHex)) => Ok(put(out, "not hexadecimal")?),
        Err(Or::Fault(HexFault::Width)) => Ok(put(out, "another width")?),
        Err(Or::Memory) => Err(Or::Memory),
    }
}

fn put_joined(alloc: Global, high: &Bits, low: &Bits, out: &mut Vec<u8>) -> Result<(), Or<Unread>> {
    if high.len().checked_add(low.len()).is_none() {
        return Err(Or::Fault(Unread));
    }
    Ok(put_all(alloc, &high.join(alloc, low)?, out)?)
}

fn put_cut(alloc: Global, high: u32, text: &str, out: &mut Vec<u8>) -> Result<(), Or<Unread>> {
    let (low, bits) = text.split_once(' ').ok_or(Or::Fault(Unread))?;
    let low = number(low)?;
    let bits = listed(alloc, bits)?;
    if low > high || high >= bits.len() {
        return Err(Or::Fault(Unread));
    }
    Ok(put_all(alloc, &bits.cut(alloc, high, low)?, out)?)
}

fn put_lowest(alloc: Global, number: u32, text: &str, out: &mut Vec<u8>) -> Result<(), Or<Unread>> {
    let mut bits = listed(alloc, text)?;
    bits.put_number(u128::from(number));
    Ok(put_all(alloc, &bits, out)?)
}

fn put_same(alloc: Global, width: u32, text: &str, out: &mut Vec<u8>) -> Result<(), Or<Unread>> {
    let (found, bits) = text.split_once(' ').ok_or(Or::Fault(Unread))?;
    let Ok(found) = Bits::of_number(alloc, width, u128::from(number(found)?)) else {
        return Err(Or::Fault(Unread));
    };
    let same = found == listed(alloc, bits)?;
    Ok(put(out, if same { "yes" } else { "no" })?)
}

fn put_decimal(number: u128, out: &mut Vec<u8>) -> Result<(), NoMemory> {
    let mut digits = Buffer::new();
    put(out, digits.format(number))
}

// Writes bits, their number if they have one, and their digits.
fn put_all(alloc: Global, bits: &Bits, out: &mut Vec<u8>) -> Result<(), NoMemory> {
    for place in 0..bits.len() {
        out.push(if bits.at(place) { b'1' } else { b'0' })?;
    }
    if let Some(number) = bits.number() {
        put(out, ", the number ")?;
        put_decimal(number, out)?;
    }
    put(out, ", the digits ")?;
    Ok(out.extend_from_slice(bits.hex(alloc)?.as_slice())?)
}
