//! Waves in rows.
use chw_base::{NoMemory, Or};
use chw_bits::Bits;
use itoa::Buffer;
use row_tables::{Unread, bytes_of, put, put_bytes, put_number};
use std::alloc::Global;
use wave_read::read_vcd;
use wave_text::{VcdFault, Wave, WaveStep};
use waves::WaveVar;

/// Writes the variables and the times of a text, or its fault.
pub fn put_read(alloc: Global, text: &str, out: &mut Vec<u8>) -> Result<(), Or<Unread>> {
    let text = bytes_of(alloc, text)?;
    if text.len() > u32::MAX as usize {
        return Err(Or::Fault(Unread));
    }
    match read_vcd(alloc, &text) {
        Ok(wave) => Ok(put_wave(&wave, out)?),
        Err(Or::Fault(fault)) => Ok(put_fault(alloc, fault, out)?),
        Err(Or::Memory) => Err(Or::Memory),
    }
}

/// Writes the value of a variable at a time.
pub fn put_value(
    alloc: Global,
    var: &str,
    time: &str,
    text: &str,
    out: &mut Vec<u8>,
) -> Result<(), Or<Unread>> {
    let var = var.parse::<u32>().map_err(|_| Or::Fault(Unread))?;
    let time = time.parse::<u64>().map_err(|_| Or::Fault(Unread))?;
    let text = bytes_of(alloc, text)?;
    if text.len() > u32::MAX as usize {
        return Err(Or::Fault(Unread));
    }
    let Ok(wave) = read_vcd(alloc, &text) else {
        return Err(Or::Fault(Unread));
    };
    match wave.at(var, time) {
        Some(bits) => Ok(put_bits(bits, out)?),
        None => Ok(put(out, "none")?),
    }
}

fn put_fault(alloc: Global, fault: VcdFault, out: &mut Vec<u8>) -> Result<(), NoMemory> {
    let shown = format!(in alloc; "{fault}")?;
    put(out, shown.as_str())
}

fn put_wave(wave: &Wave, out: &mut Vec<u8>) -> Result<(), NoMemory> {
    put(out, "vars ")?;
    put_vars(wave.vars.as_slice(), out)?;
    for step in wave.steps.as_slice() {
        put_step(step, out)?;
    }
    Ok(())
}

fn put_vars(vars: &[WaveVar], out: &mut Vec<u8>) -> Result<(), NoMemory> {
    if vars.is_empty() {
        return put(out, "-");
    }
    let mut sign = "";
    for var in vars {
        put(out, sign)?;
        put_bytes(out, var.name.as_slice())?;
        put_number(out, " ", var.width)?;
        sign = ", ";
    }
    Ok(())
}

fn put_step(step: &WaveStep, out: &mut Vec<u8>) -> Result<(), NoMemory> {
    let mut digits = Buffer::new();
    put(out, "; #")?;
    put(out, digits.format(step.time))?;
    for change in step.changes.as_slice() {
        put_number(out, " ", change.var)?;
        put(out, "=")?;
        put_bits(&change.value, out)?;
    }
    Ok(())
}

fn put_bits(bits: &Bits, out: &mut Vec<u8>) -> Result<(), NoMemory> {
    for bit in bits.as_slice() {
        put(out, if *bit { "1" } else { "0" })?;
    }
    Ok(())
}
