//! Rows of stimuli: the events of a text, or the line that isn't taken, and the printed lines. Rows
//! of waves: the variables and times of a text, or its fault. Rows of nets of single bits: the net
//! of a text, or its fault.
//!
//! `read "DOMAINS" "INPUTS" "TEXT"` gives the events of the text, each run of equal ones behind its
//! count, or the fault. `lines "DOMAINS" "INPUTS" "OUTPUTS" "TEXT"` prints the lines of its events,
//! where each output has the bits of the input in its place. DOMAINS are names, with `!` where the
//! domain has a reset. INPUTS and OUTPUTS are a domain, a name and a width each, with `, ` between.
//!
//! `wave "TEXT"` gives the variables with their widths, and each time with its changes: the numbers
//! of variables and their values. Or it gives the fault.
//!
//! `value "VAR" "TIME" "TEXT"` gives the value of the variable of this number at this time.
//!
//! `net "TEXT"` gives the net of single bits of the text as it is printed, with `; ` between lines.
//! Or it gives the fault.
#![tactic(auto)]

mod net_rows;
mod ports;
mod wave_rows;

use blif_text::laws::{no_text_is_both as no_text_of_bits_is_both, one_bitnet};
use chw_base::limits::DOMAINS;
use chw_base::{DomId, NoMemory, Or, Seq};
use chw_bits::Bits;
use chw_clock::Event;
use net_rows::put_net;
use ports::{ports_of, quoted};
use row_tables::{Unread, bytes_of, print_rows, put, put_bytes, put_number};
use std::alloc::Global;
use std::io;
use stimulus::laws::{no_fault, one_fault, one_stimulus};
use stimulus::{StimFault, print_line, read_stimulus};
use wave_rows::{put_read, put_value};
use wave_text::laws::{no_text_is_both, one_wave, printed_waves_are_read, waves_have_the_values};

fn main(rt: HostRuntime) -> io::Result<()> {
    one_stimulus();
    one_fault();
    no_fault();
    one_wave();
    no_text_is_both();
    printed_waves_are_read();
    waves_have_the_values();
    one_bitnet();
    no_text_of_bits_is_both();
    print_rows(&rt, answer)
}

// Writes what a call gives.
fn answer(alloc: Global, call: &str, text: &str, out: &mut Vec<u8>) -> Result<(), Or<Unread>> {
    let words = quoted(alloc, text)?;
    match (call, words.as_slice()) {
        ("read", [domains, inputs, text]) => put_events(alloc, domains, inputs, text, out),
        ("lines", [domains, inputs, outputs, text]) => {
            put_lines(alloc, domains, inputs, outputs, text, out)
        }
        ("wave", [text]) => put_read(alloc, text, out),
        ("value", [var, time, text]) => put_value(alloc, var, time, text, out),
        ("net", [text]) => put_net(alloc, text, out),
        _ => Err(Or::Fault(Unread)),
    }
}

fn put_events(
    alloc: Global,
    domains: &str,
    inputs: &str,
    text: &str,
    out: &mut Vec<u8>,
) -> Result<(), Or<Unread>> {
    let ports = ports_of(alloc, domains, inputs, "")?;
    let text = bytes_of(alloc, text)?;
    match read_stimulus(alloc, &text, &ports) {
        Ok(events) if events.is_empty() => Ok(put(out, "no events")?),
        Ok(events) => Ok(put_runs(alloc, &events, out)?),
        Err(Or::Fault(fault)) => Ok(put_fault(alloc, fault, out)?),
        Err(Or::Memory) => Err(Or::Memory),
    }
}

fn put_fault(alloc: Global, fault: StimFault, out: &mut Vec<u8>) -> Result<(), NoMemory> {
    let shown = format!(in alloc; "{fault}")?;
    put(out, shown.as_str())
}

// Writes each run of equal events behind its count.
fn put_runs(alloc: Global, events: &Seq<Event>, out: &mut Vec<u8>) -> Result<(), NoMemory> {
    let mut last = Vec::new(alloc);
    let mut count: u32 = 0;
    for event in events.as_slice() {
        let mut this = Vec::new(alloc);
        put_event(event, &mut this)?;
        if this == last {
            count = count.saturating_add(1);
        } else {
            put_run(&last, count, out)?;
            last = this;
            count = 1;
        }
    }
    put_run(&last, count, out)
}

fn put_run(event: &[u8], count: u32, out: &mut Vec<u8>) -> Result<(), NoMemory> {
    if count > 0 {
        put_number(out, if out.is_empty() { "" } else { "; " }, count)?;
        out.extend_from_slice(event)?;
    }
    Ok(())
}

fn put_event(event: &Event, out: &mut Vec<u8>) -> Result<(), NoMemory> {
    put(out, " ticks ")?;
    put_domains(event.ticks.as_slice(), out)?;
    put(out, " resets ")?;
    put_domains(event.resets.as_slice(), out)?;
    put(out, " inputs ")?;
    put_inputs(event.inputs.as_slice(), out)
}

// Writes the numbers of the domains, which are a set, from the least on.
fn put_domains(domains: &[DomId], out: &mut Vec<u8>) -> Result<(), NoMemory> {
    if domains.is_empty() {
        return put(out, "-");
    }
    let mut sign = "";
    for number in 0..DOMAINS {
        if domains.iter().any(|domain| domain.number == number) {
            put_number(out, sign, number)?;
            sign = ",";
        }
    }
    Ok(())
}

fn put_inputs(inputs: &[Bits], out: &mut Vec<u8>) -> Result<(), NoMemory> {
    if inputs.is_empty() {
        return put(out, "-");
    }
    for (place, bits) in inputs.iter().enumerate() {
        put(out, if place == 0 { "" } else { "," })?;
        for bit in bits.as_slice() {
            put(out, if *bit { "1" } else { "0" })?;
        }
    }
    Ok(())
}

fn put_lines(
    alloc: Global,
    domains: &str,
    inputs: &str,
    outputs: &str,
    text: &str,
    out: &mut Vec<u8>,
) -> Result<(), Or<Unread>> {
    let ports = ports_of(alloc, domains, inputs, outputs)?;
    let text = bytes_of(alloc, text)?;
    let Ok(events) = read_stimulus(alloc, &text, &ports) else {
        return Err(Or::Fault(Unread));
    };
    if events.is_empty() {
        return Ok(put(out, "no lines")?);
    }
    let mut lines = Vec::new(alloc);
    let mut number: u32 = 0;
    for event in events.as_slice() {
        print_line(
            alloc,
            number,
            &ports,
            event,
            event.inputs.as_slice(),
            &mut lines,
        )?;
        number = number.saturating_add(1);
    }
    Ok(put_bytes(out, &lines)?)
}
