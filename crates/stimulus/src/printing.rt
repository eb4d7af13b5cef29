//! The printed line of an event.
ghost use Rattle.std.specs.Prelude.{◌≡◌, ◌++◌, OnOk, OnErr};
ghost use Rattle.chw_clock.specs.Histories.{ticks};
ghost use Rattle.stimulus.specs.Output.{line_text, output_text, outputs_text};

use chw_base::{DomId, NoMemory};
use chw_bits::Bits;
use chw_clock::{Event, Port, Ports};
use itoa::Buffer;
use std::alloc::Global;

fn ticks(event: &Event, domain: DomId) -> bool
    ensures { result ≡ ticks event.now domain }
{
    event
        .ticks
        .as_slice()
        .iter()
        .any(|d| d.number == domain.number)
}

/// Appends an output, where its domain ticks in the event.
fn put_output(event: &Event, port: &Port, bits: &Bits, into: &mut Vec<u8>) -> Result<(), NoMemory>
    ensures { OnOk result (into.new.items ≡ into.old.items ++ output_text event.now port.now bits.now) }
{
    if !ticks(event, port.dom) {
        return Ok(());
    }
    into.push(b' ')?;
    into.extend_from_slice(port.name.as_slice())?;
    into.push(b'=')?;
    bits.put_hex(into)
}

/// Appends the outputs whose domains tick in the event.
fn put_outputs(
    event: &Event,
    ports: &[Port],
    outputs: &[Bits],
    into: &mut Vec<u8>,
) -> Result<(), NoMemory>
    ensures { OnOk result (into.new.items ≡ into.old.items ++ outputs_text event.now ports.now outputs.now) }
{
    let count = ports.len().min(outputs.len());
    for place in 0..count {
        put_output(event, &ports[place], &outputs[place], into)?;
    }
    Ok(())
}

/// Appends the line of an event to a text: its number, and the outputs whose domains tick in it.
///
/// `NoMemory` comes where the line finds no memory or the text can't grow so far. The text is then as
/// before.
pub fn print_line(
    alloc: Global,
    number: u32,
    ports: &Ports,
    event: &Event,
    outputs: &[Bits],
    into: &mut Vec<u8>,
) -> Result<(), NoMemory>
    ensures line { OnOk result (into.new.items ≡ into.old.items ++ line_text number ports.now event.now outputs.now) }
    ensures unchanged { OnErr result (into.new.items ≡ into.old.items) }
{
    let mut digits = Buffer::new();
    let mut line = Vec::from_slice(alloc, digits.format(number).as_bytes())?;
    line.push(b':')?;
    put_outputs(event, ports.outputs.as_slice(), outputs, &mut line)?;
    line.push(b'\n')?;
    into.extend_from_slice(&line)?;
    Ok(())
}
