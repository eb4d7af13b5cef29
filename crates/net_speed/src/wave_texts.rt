//! Large texts of waves, and the reading of them.
use crate::Trouble;
use chw_base::{NoMemory, Or};
use itoa::Buffer;
use std::alloc::Global;
use wave_read::read_vcd;

fn put(out: &mut Vec<u8>, bytes: &[u8]) -> Result<(), NoMemory> {
    Ok(out.extend_from_slice(bytes)?)
}

fn put_header(out: &mut Vec<u8>) -> Result<(), NoMemory> {
    put(out, b"$timescale 1 ns $end\n$scope module chw_top $end\n")?;
    put(
        out,
        b"$var wire 1 ! clk_Sys $end\n$var wire 32 \" o_Sys_o $end\n",
    )?;
    put(out, b"$upscope $end\n$enddefinitions $end\n")
}

fn put_time(out: &mut Vec<u8>, time: u64) -> Result<(), NoMemory> {
    let mut digits = Buffer::new();
    put(out, b"#")?;
    put(out, digits.format(time).as_bytes())?;
    put(out, b"\n")
}

// The lines of an event: the clock falls and the output changes, and then the clock rises.
fn put_event(out: &mut Vec<u8>, number: u32) -> Result<(), NoMemory> {
    put_time(out, u64::from(number) * 2)?;
    put(out, b"0!\n")?;
    if number % 2 == 0 {
        put(out, b"b01100110011001100110011001100110 \"\n")?;
    } else {
        put(out, b"b11111111000000001111111100000000 \"\n")?;
    }
    put_time(out, u64::from(number) * 2 + 1)?;
    put(out, b"1!\n")
}

/// The waves of a clock and of an output of 32 bits that changes at each of so many events.
pub(crate) fn waves(alloc: Global, events: u32) -> Result<Vec<u8>, NoMemory> {
    let mut out = Vec::new(alloc);
    put_header(&mut out)?;
    for number in 0..events {
        put_event(&mut out, number)?;
    }
    Ok(out)
}

/// How many times the wave has that is read from a text.
pub(crate) fn times_read(alloc: Global, text: &[u8]) -> Result<usize, Trouble> {
    if text.len() > u32::MAX as usize {
        return Err(Trouble::Memory);
    }
    match read_vcd(alloc, text) {
        Ok(wave) => Ok(wave.steps.len()),
        Err(Or::Memory) => Err(Trouble::Memory),
        Err(Or::Fault(_)) => Err(Trouble::Net),
    }
}
