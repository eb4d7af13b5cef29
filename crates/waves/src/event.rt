//! The lines of an event.
ghost use Rattle.std.specs.Prelude.{◌≡◌, ◌+◌, ◌<◌, ◌^◌, ◌++◌, ◌==◌, [], true, length, map};
ghost use Rattle.std.specs.Prelude.{if◌then◌else◌, IfOk, OnOk, OnErr};
ghost use Rattle.chw_bits.specs.Bitwise.{one_bit};
ghost use Rattle.waves.specs.Vcd.{changes, event_text, levels, values_at};
ghost use Rattle.waves.specs.Holding.{FitsTable, listed, shown, widths};

use crate::pieces::put_time;
use crate::values::{Values, levels_of, put_changes, put_levels, renew};
use chw_base::NoMemory;
use chw_bits::Bits;
use chw_clock::{Event, Ports};
use std::alloc::Global;

/// How many bytes the lines of an event have room for at first.
const FIRST_ROOM: usize = 256;

/// The values that were shown, of which there are none before the first event.
fn shown<T>(is_first: bool, values: &[T]) -> &[T]
    ensures { result.now ≡ (if is_first then [] else values.now) }
{
    if is_first { &values[..0] } else { values }
}

/// Writes the lines of the values that weren't shown yet.
fn put_values(
    out: &mut Vec<u8>,
    number: u64,
    last: &Values,
    levels: &[bool],
    inputs: &[Bits],
    outputs: &[Bits],
) -> Result<(), NoMemory>
    requires levels { 0 < number → length last.now.levels.items ≡ length levels.now }
    requires inputs { length last.now.inputs.items ≡ length inputs.now }
    ensures { OnOk result (out.new.items ≡ out.old.items
        ++ changes 0 (shown number last.now)
        (map one_bit levels.now ++ (inputs.now ++ outputs.now))) }
{
    let is_first = number == 0;
    put_levels(out, shown(is_first, last.levels.as_slice()), levels)?;
    let place = put_changes(
        out,
        levels.len() as u64,
        shown(is_first, last.inputs.as_slice()),
        inputs,
    )?;
    put_changes(
        out,
        place,
        shown(is_first, last.outputs.as_slice()),
        outputs,
    )?;
    Ok(())
}

/// The lines of an event, and the levels of clocks and resets at its edges.
#[derive(Drop)]
struct Made {
    text: Vec<u8>,
    levels: Vec<bool>,
}

/// The lines of both times of an event.
fn made_of(
    alloc: Global,
    number: u64,
    ports: &Ports,
    last: &Values,
    event: &Event,
    outputs: &[Bits],
) -> Result<Made, NoMemory>
    requires few { number < 2 ^ 63 }
    requires table { FitsTable ports.now number last.now }
    requires inputs { map length event.now.inputs ≡ widths ports.now.inputs }
    ensures text { IfOk result (λ made. made.text.items
        ≡ event_text number ports.now (shown number last.now) event.now outputs.now) }
    ensures levels { IfOk result (λ made. made.levels.items ≡ levels ports.now true event.now) }
{
    let low = levels_of(alloc, ports, false, event)?;
    let high = levels_of(alloc, ports, true, event)?;
    let mut text = Vec::with_capacity(alloc, FIRST_ROOM)?;
    put_time(&mut text, 2 * number)?;
    put_values(
        &mut text,
        number,
        last,
        &low,
        event.inputs.as_slice(),
        outputs,
    )?;
    put_time(&mut text, 2 * number + 1)?;
    put_levels(&mut text, &low, &high)?;
    Ok(Made { text, levels: high })
}

/// Writes the lines of an event, and keeps its values. Want of memory changes nothing.
pub(crate) fn put_event(
    alloc: Global,
    number: u64,
    ports: &Ports,
    last: &mut Values,
    event: &Event,
    outputs: &[Bits],
    out: &mut Vec<u8>,
) -> Result<(), NoMemory>
    requires few { number < 2 ^ 63 }
    requires table { FitsTable ports.now number last.old }
    requires inputs { map length event.now.inputs ≡ widths ports.now.inputs }
    requires outputs { map length outputs.now ≡ widths ports.now.outputs }
    ensures text { OnOk result (out.new.items ≡ out.old.items
        ++ event_text number ports.now (shown number last.old) event.now outputs.now) }
    ensures last { OnOk result (listed last.new ≡ values_at ports.now true event.now outputs.now) }
    ensures table { OnOk result (FitsTable ports.now (number + 1) last.new) }
    ensures same_text { OnErr result (out.new.items ≡ out.old.items) }
    ensures same_last { OnErr result (last.new ≡ last.old) }
{
    let made = made_of(alloc, number, ports, last, event, outputs)?;
    out.extend_from_slice(&made.text)?;
    let Made { text: _, levels } = made;
    last.levels = levels;
    renew(&mut last.inputs, event.inputs.as_slice());
    renew(&mut last.outputs, outputs);
    Ok(())
}
