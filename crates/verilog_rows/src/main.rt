//! Rows of nets, each with its Verilog text, and of Verilog texts, each with what is read.
//!
//! `print NET` is the text of a net, and says so where this text isn't read as a net of the same text. `read TEXT` is `taken`, or the code and the place at which
//! the text is refused. `canonical TEXT` is the text of the net that is read. `prefixes TEXT` looks at each proper prefix of a text.
#![tactic(auto)]

use chw_base::{NoMemory, Or};
use net_notation::net_of;
use row_tables::{Unread, bytes_of, print_rows, put, put_bytes};
use std::alloc::Global;
use std::io;
use verilog_print::print;
use verilog_read::read;
use verilog_rules::{VCode, VFault};

fn main(rt: HostRuntime) -> io::Result<()> {
    print_rows(&rt, answer)
}

// Writes what a call gives.
fn answer(alloc: Global, call: &str, text: &str, out: &mut Vec<u8>) -> Result<(), Or<Unread>> {
    match call {
        "print" => put_printed(alloc, text, out),
        "read" => put_read(alloc, text, out),
        "canonical" => put_canonical(alloc, text, out),
        "prefixes" => put_prefixes(alloc, text, out),
        _ => Err(Or::Fault(Unread)),
    }
}

// Writes the Verilog text of a net, a line feed as `{{0a}}`.
fn put_printed(alloc: Global, text: &str, out: &mut Vec<u8>) -> Result<(), Or<Unread>> {
    let net = net_of(alloc, text)?;
    let printed = print(alloc, &net)?;
    if !is_read_back(alloc, &printed)? {
        put(out, "read otherwise: ")?;
    }
    Ok(put_bytes(out, &printed)?)
}

// Whether a printed text is read as a net that has this text.
fn is_read_back(alloc: Global, text: &[u8]) -> Result<bool, NoMemory> {
    match read(alloc, text) {
        Ok(net) => Ok(print(alloc, &net)?.as_slice() == text),
        Err(Or::Fault(_)) => Ok(false),
        Err(Or::Memory) => Err(NoMemory),
    }
}

// Writes whether a text is read.
fn put_read(alloc: Global, text: &str, out: &mut Vec<u8>) -> Result<(), Or<Unread>> {
    match read(alloc, &bytes_of(alloc, text)?) {
        Ok(_) => Ok(put(out, "taken")?),
        Err(Or::Fault(fault)) => Ok(put_fault(out, fault)?),
        Err(Or::Memory) => Err(Or::Memory),
    }
}

// Writes the text of the net that is read.
fn put_canonical(alloc: Global, text: &str, out: &mut Vec<u8>) -> Result<(), Or<Unread>> {
    match read(alloc, &bytes_of(alloc, text)?) {
        Ok(net) => Ok(put_bytes(out, &print(alloc, &net)?)?),
        Err(Or::Fault(fault)) => Ok(put_fault(out, fault)?),
        Err(Or::Memory) => Err(Or::Memory),
    }
}

// Writes a code and a place.
fn put_fault(out: &mut Vec<u8>, fault: VFault) -> Result<(), NoMemory> {
    put(out, name_of(fault.code))?;
    put_place(out, fault.at)
}

fn name_of(code: VCode) -> &'static str {
    match code {
        VCode::V01 => "V01",
        VCode::V02 => "V02",
        VCode::V03 => "V03",
        VCode::V04 => "V04",
        VCode::V05 => "V05",
        VCode::V06 => "V06",
    }
}

// Writes a place.
fn put_place(out: &mut Vec<u8>, at: usize) -> Result<(), NoMemory> {
    match u32::try_from(at) {
        Ok(at) => row_tables::put_number(out, " at ", at),
        Err(_) => put(out, " at a place beyond 32 bits"),
    }
}

// Writes whether each proper prefix of a text has no token at some place or ends too early, and else the length of one that doesn't.
fn put_prefixes(alloc: Global, text: &str, out: &mut Vec<u8>) -> Result<(), Or<Unread>> {
    let text = bytes_of(alloc, text)?;
    for length in 0..text.len() {
        if !is_cut_off(alloc, &text[..length])? {
            put(out, "not so")?;
            return Ok(put_place(out, length)?);
        }
    }
    Ok(put(out, "each is V01 or V02")?)
}

fn is_cut_off(alloc: Global, text: &[u8]) -> Result<bool, NoMemory> {
    match read(alloc, text) {
        Ok(_) => Ok(false),
        Err(Or::Fault(fault)) => Ok(fault.code == VCode::V01 || fault.code == VCode::V02),
        Err(Or::Memory) => Err(NoMemory),
    }
}
