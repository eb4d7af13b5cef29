//! The text of the stimulus of all operands of a small net.

use chw_base::Or;
use chw_bits::Bits;
use chw_bits::machine::{down, lowest};
use chw_clock::{Port, Ports};
use row_tables::{Unread, put};
use std::alloc::Global;

/// The most bits of all inputs.
const FEW: u32 = 12;

// Appends an input with the lowest bits of a number.
fn put_input(
    alloc: Global,
    port: &Port,
    number: u128,
    text: &mut Vec<u8>,
) -> Result<(), Or<Unread>> {
    put(text, " ")?;
    text.extend_from_slice(port.name.as_slice())?;
    put(text, "=")?;
    match Bits::of_number(alloc, port.width, lowest(port.width, number)) {
        Ok(bits) => Ok(bits.put_hex(text)?),
        Err(Or::Memory) => Err(Or::Memory),
        Err(Or::Fault(_)) => Err(Or::Fault(Unread)),
    }
}

// Appends the event of this number: the first input has its lowest bits.
fn put_event(
    alloc: Global,
    ports: &Ports,
    number: u32,
    text: &mut Vec<u8>,
) -> Result<(), Or<Unread>> {
    let Some(domain) = ports.domains.as_slice().first() else {
        return Err(Or::Fault(Unread));
    };
    text.extend_from_slice(domain.as_slice())?;
    put(text, ":")?;
    let mut left = u128::from(number);
    for port in ports.inputs.as_slice() {
        put_input(alloc, port, left, text)?;
        left = down(left, u128::from(port.width));
    }
    Ok(put(text, "\n")?)
}

// How many bits all inputs have.
fn bit_count(ports: &Ports) -> u32 {
    let mut count: u32 = 0;
    for port in ports.inputs.as_slice() {
        count = count.saturating_add(port.width);
    }
    count
}

/// The text of an event for each choice of the inputs' bits, where they are few.
pub(crate) fn all_operands(alloc: Global, ports: &Ports) -> Result<Vec<u8>, Or<Unread>> {
    let count = bit_count(ports);
    if count > FEW {
        return Err(Or::Fault(Unread));
    }
    let mut text = Vec::new(alloc);
    for number in 0..(1_u32 << count) {
        put_event(alloc, ports, number, &mut text)?;
    }
    Ok(text)
}
