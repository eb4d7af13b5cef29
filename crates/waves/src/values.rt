//! The values of variables, and the lines of those that change.
ghost use Rattle.std.specs.Prelude.{◌≡◌, ◌+◌, ◌<◌, ◌≤◌, ◌++◌, [], length, map, drop};
ghost use Rattle.std.specs.Prelude.{if◌then◌else◌, IfOk, OnOk, vec_capacity, vec_len};
ghost use Rattle.chw_base.specs.declared.index.DomId.{DomId};
ghost use Rattle.chw_bits.specs.Bitwise.{one_bit};
ghost use Rattle.chw_clock.specs.Histories.{resets, ticks};
ghost use Rattle.waves.specs.Vcd.{changes, digit_of, domain_levels, is_shown, levels, value_line};
ghost use Rattle.waves.specs.Vcd.{value_text};
ghost use Rattle.waves.specs.Holding.{widths};

use crate::codes::put_code;
use crate::pieces::put_byte;
use chw_base::NoMemory;
use chw_bits::Bits;
use chw_clock::{Event, Port, Ports};
use std::alloc::Global;

/// The values of the variables at one time: of clocks and resets, of inputs, and of outputs.
#[derive(Drop)]
pub(crate) struct Values {
    pub(crate) levels: Vec<bool>,
    pub(crate) inputs: Vec<Bits>,
    pub(crate) outputs: Vec<Bits>,
}

/// Whether the domain ticks in the event.
fn ticks(event: &Event, domain: usize) -> bool
    ensures { result ≡ ticks event.now (record { number = domain }) }
{
    event
        .ticks
        .as_slice()
        .iter()
        .any(|d| d.number as usize == domain)
}

/// Whether the reset of the domain is asserted in the event.
fn resets(event: &Event, domain: usize) -> bool
    ensures { result ≡ resets event.now (record { number = domain }) }
{
    event
        .resets
        .as_slice()
        .iter()
        .any(|d| d.number as usize == domain)
}

/// Adds the level of a domain's clock, and that of its reset where it has one.
fn put_domain_levels(
    ports: &Ports,
    risen: bool,
    event: &Event,
    domain: usize,
    into: &mut Vec<bool>,
) -> Result<(), NoMemory>
    ensures { OnOk result (into.new.items
        ≡ into.old.items ++ domain_levels ports.now risen event.now domain) }
{
    into.push(risen && ticks(event, domain))?;
    if ports.has_reset(domain) {
        into.push(resets(event, domain))?;
    }
    Ok(())
}

/// The levels of all clocks and resets.
pub(crate) fn levels_of(
    alloc: Global,
    ports: &Ports,
    risen: bool,
    event: &Event,
) -> Result<Vec<bool>, NoMemory>
    ensures { IfOk result (λ v. v.items ≡ levels ports.now risen event.now) }
{
    let mut levels = Vec::new(alloc);
    for domain in 0..ports.domains.len() {
        put_domain_levels(ports, risen, event, domain, &mut levels)?;
    }
    Ok(levels)
}

/// Bits of the ports' widths, none of them set.
pub(crate) fn no_values(alloc: Global, ports: &[Port]) -> Result<Vec<Bits>, NoMemory>
    ensures { IfOk result (λ v. map length v.items ≡ widths ports.now) }
{
    let mut values = Vec::new(alloc);
    for port in ports {
        values.push(Bits::of_list(vec![in alloc; false; port.width as usize]?))?;
    }
    Ok(values)
}

/// Puts these bits in place of others of the same widths. It takes no memory.
pub(crate) fn renew(values: &mut [Bits], new: &[Bits])
    requires { map length new.now ≡ map length values.old }
    ensures { values.new ≡ new.now }
{
    for (k, bits) in new.iter().enumerate() {
        values[k].put_list(bits.as_slice());
    }
}

/// A bit as its digit.
fn digit_of(bit: bool) -> u8
    ensures { result ≡ digit_of bit }
{
    if bit { b'1' } else { b'0' }
}

/// Writes bits as their digits, for which there is room.
fn fill_digits(out: &mut Vec<u8>, bits: &[bool])
    requires { vec_len out.old + length bits.now ≤ vec_capacity out.old }
    ensures { out.new.items ≡ out.old.items ++ map digit_of bits.now }
{
    for bit in bits {
        out.push_reserved(digit_of(*bit));
    }
}

/// Writes bits as their digits.
fn put_digits(out: &mut Vec<u8>, bits: &[bool]) -> Result<(), NoMemory>
    ensures { OnOk result (out.new.items ≡ out.old.items ++ map digit_of bits.now) }
{
    out.reserve(bits.len())?;
    fill_digits(out, bits);
    Ok(())
}

/// Writes what stands of a value before the code.
fn put_bits(out: &mut Vec<u8>, bits: &[bool]) -> Result<(), NoMemory>
    ensures { OnOk result (out.new.items ≡ out.old.items ++ value_text bits.now) }
{
    if bits.len() == 1 {
        return put_digits(out, bits);
    }
    put_byte(out, b'b')?;
    put_digits(out, bits)?;
    put_byte(out, b' ')?;
    Ok(())
}

/// Writes the line of a value.
fn put_value(out: &mut Vec<u8>, number: u64, bits: &[bool]) -> Result<(), NoMemory>
    ensures { OnOk result (out.new.items ≡ out.old.items ++ value_line number bits.now) }
{
    put_bits(out, bits)?;
    put_code(out, number)?;
    put_byte(out, b'\n')?;
    Ok(())
}

/// The number behind so many. More variables than can be numbered fit no memory.
fn number_behind(number: u64, count: usize) -> Result<u64, NoMemory>
    ensures { IfOk result (λ n. n ≡ number + count) }
{
    number.checked_add(count as u64).ok_or(NoMemory)
}

/// Whether the old value of this place has this level.
fn is_level_shown(old: &[bool], place: usize, level: bool) -> bool
    ensures { result ≡ is_shown (map one_bit (drop place old.now)) (one_bit level) }
{
    match old.get(place) {
        Some(was) => *was == level,
        None => false,
    }
}

/// Writes the line of a level, where it isn't the old one.
fn put_level(out: &mut Vec<u8>, place: usize, old: &[bool], level: bool) -> Result<(), NoMemory>
    ensures { OnOk result (out.new.items ≡ out.old.items
        ++ (if is_shown (map one_bit (drop place old.now)) (one_bit level) then []
        else value_line place (one_bit level))) }
{
    if is_level_shown(old, place, level) {
        return Ok(());
    }
    put_value(out, place as u64, &[level])
}

/// Writes the lines of the levels that aren't the old ones.
pub(crate) fn put_levels(out: &mut Vec<u8>, old: &[bool], new: &[bool]) -> Result<(), NoMemory>
    ensures { OnOk result (out.new.items
        ≡ out.old.items ++ changes 0 (map one_bit old.now) (map one_bit new.now)) }
{
    for (place, level) in new.iter().enumerate() {
        put_level(out, place, old, *level)?;
    }
    Ok(())
}

/// Whether the old value of this place has these bits.
fn is_shown(old: &[Bits], place: usize, bits: &Bits) -> bool
    ensures { result ≡ is_shown (drop place old.now) bits.now }
{
    match old.get(place) {
        Some(was) => was == bits,
        None => false,
    }
}

/// Writes the line of the value of a place, where it isn't the old one.
fn put_change(
    out: &mut Vec<u8>,
    number: u64,
    place: usize,
    old: &[Bits],
    bits: &Bits,
) -> Result<(), NoMemory>
    ensures { OnOk result (out.new.items ≡ out.old.items
        ++ (if is_shown (drop place old.now) bits.now then [] else value_line number bits.now)) }
{
    if is_shown(old, place, bits) {
        return Ok(());
    }
    put_value(out, number, bits.as_slice())
}

/// Writes the lines of the values that aren't the old ones, from the variable of a number on.
///
/// Returns the number behind them.
pub(crate) fn put_changes(
    out: &mut Vec<u8>,
    first: u64,
    old: &[Bits],
    new: &[Bits],
) -> Result<u64, NoMemory>
    ensures lines { OnOk result (out.new.items ≡ out.old.items ++ changes first old.now new.now) }
    ensures next { IfOk result (λ next. next ≡ first + length new.now) }
{
    let next = number_behind(first, new.len())?;
    for (place, bits) in new.iter().enumerate() {
        put_change(out, first + place as u64, place, old, bits)?;
    }
    Ok(next)
}
