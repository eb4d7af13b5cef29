//! Rows of nets with stimuli: the lines of the outputs that a stepped table shows, and those of
//! single bits.
//!
//! `run NET // TEXT` takes a net in the notation of net_notation, and the text of a stimulus.
//! `bits NET // TEXT` shows the outputs of the net of single bits. `operands NET` steps both by all
//! bits of the inputs, and shows whether they have the same outputs. `nodes NET` shows how many
//! nodes there are, and `text NET` the text that they are printed as. In the texts of nets pieces
//! may stand several times.
#![tactic(auto)]

ghost use Rattle.net_rules.specs.WellFormed.{WellFormed};
ghost use Rattle.netlist.specs.Orders.{IsOrder};
ghost use Rattle.netlist.specs.Sound.{Sound};

mod bits;
mod known;
mod operands;

use bit_blast::blast;
use bit_nodes::BitNode;
use bits::bit_lines;
use blif_text::print;
use chw_base::{NoMemory, Or, Seq, narrow};
use net_flat::flatten::flatten;
use net_notation::net_of;
use net_rules::well_formed::well_formed;
use net_run::run;
use netlist::ordering::order;
use netlist::{Flat, Net, Order};
use operands::all_operands;
use row_tables::{Unread, bytes_of, print_rows, put, put_bytes, put_number};
use std::alloc::Global;
use std::io;
use stimulus::read_stimulus;

fn main(rt: HostRuntime) -> io::Result<()> {
    print_rows(&rt, answer)
}

/// What is shown of a net.
#[derive(Clone, Copy)]
enum Shown<'t> {
    /// The lines of its outputs at a stimulus.
    Lines(&'t str),
    /// Those of its single bits.
    BitLines(&'t str),
    /// Whether both are the same at all operands.
    Operands,
    /// How many nodes its net of single bits has.
    Nodes,
    /// The text of its net of single bits.
    Text,
}

// Writes what a call gives.
fn answer(alloc: Global, call: &str, text: &str, out: &mut Vec<u8>) -> Result<(), Or<Unread>> {
    let (net, stimulus) = text.split_once(" // ").unwrap_or((text, ""));
    let shown = match call {
        "run" => Shown::Lines(stimulus),
        "bits" => Shown::BitLines(stimulus),
        "operands" => Shown::Operands,
        "nodes" => Shown::Nodes,
        "text" => Shown::Text,
        _ => return Err(Or::Fault(Unread)),
    };
    let net = net_in(alloc, net)?;
    match well_formed(alloc, &net) {
        Ok(()) => put_shown(alloc, &net, shown, out),
        Err(Or::Memory) => Err(Or::Memory),
        Err(Or::Fault(_)) => Err(Or::Fault(Unread)),
    }
}

// The net of a text, in which pieces may stand several times.
fn net_in(alloc: Global, text: &str) -> Result<Net, Or<Unread>> {
    let bytes = bytes_of(alloc, text)?;
    match std::str::from_utf8(&bytes) {
        Ok(text) => net_of(alloc, text),
        Err(_) => Err(Or::Fault(Unread)),
    }
}

// Writes what is shown of a net.
fn put_shown(
    alloc: Global,
    net: &Net,
    shown: Shown<'_>,
    out: &mut Vec<u8>,
) -> Result<(), Or<Unread>>
    requires { WellFormed net.now }
{
    match flatten(alloc, net) {
        Ok(flat) => put_flat(alloc, &flat, shown, out),
        Err(Or::Memory) => Err(Or::Memory),
        Err(Or::Fault(_)) => Err(Or::Fault(Unread)),
    }
}

// The same of a flat net.
fn put_flat(
    alloc: Global,
    flat: &Flat,
    shown: Shown<'_>,
    out: &mut Vec<u8>,
) -> Result<(), Or<Unread>>
    requires { Sound flat.now }
{
    match shown {
        Shown::Lines(text) => put_lines(alloc, flat, text, out),
        Shown::BitLines(text) => put_bit_lines(alloc, flat, text, out),
        Shown::Operands => put_operands(alloc, flat, out),
        Shown::Nodes => put_nodes(alloc, flat, out),
        Shown::Text => put_text(alloc, flat, out),
    }
}

// Writes the lines of a flat net's outputs at a stimulus.
fn put_lines(alloc: Global, flat: &Flat, text: &str, out: &mut Vec<u8>) -> Result<(), Or<Unread>>
    requires { Sound flat.now }
{
    let stimulus = bytes_of(alloc, text)?;
    let lines = lines_of(alloc, flat, &stimulus)?;
    Ok(put_bytes(out, &lines)?)
}

// The same of its single bits.
fn put_bit_lines(
    alloc: Global,
    flat: &Flat,
    text: &str,
    out: &mut Vec<u8>,
) -> Result<(), Or<Unread>>
    requires { Sound flat.now }
{
    let stimulus = bytes_of(alloc, text)?;
    let lines = lines_of_bits(alloc, flat, &stimulus)?;
    Ok(put_bytes(out, &lines)?)
}

// The lines of a flat net's outputs.
fn lines_of(alloc: Global, flat: &Flat, stimulus: &[u8]) -> Result<Vec<u8>, Or<Unread>>
    requires { Sound flat.now }
{
    match order(alloc, flat) {
        Ok(order) => ordered_lines(alloc, flat, &order, stimulus),
        Err(Or::Memory) => Err(Or::Memory),
        Err(Or::Fault(_)) => Err(Or::Fault(Unread)),
    }
}

// The same with an order of its cells.
fn ordered_lines(
    alloc: Global,
    flat: &Flat,
    order: &Order,
    stimulus: &[u8],
) -> Result<Vec<u8>, Or<Unread>>
    requires sound { Sound flat.now }
    requires order { IsOrder flat.now order.now.cells }
{
    match read_stimulus(alloc, stimulus, &flat.ports) {
        Ok(events) => Ok(run(alloc, flat, order, events.as_slice())?),
        Err(Or::Memory) => Err(Or::Memory),
        Err(Or::Fault(_)) => Err(Or::Fault(Unread)),
    }
}

// The lines of the outputs of its single bits.
fn lines_of_bits(alloc: Global, flat: &Flat, stimulus: &[u8]) -> Result<Vec<u8>, Or<Unread>>
    requires { Sound flat.now }
{
    let nodes = nodes_of(alloc, flat)?;
    match read_stimulus(alloc, stimulus, &flat.ports) {
        Ok(events) => bit_lines(alloc, flat, nodes.as_slice(), events.as_slice()),
        Err(Or::Memory) => Err(Or::Memory),
        Err(Or::Fault(_)) => Err(Or::Fault(Unread)),
    }
}

// Its nodes, where there are few enough.
fn nodes_of(alloc: Global, flat: &Flat) -> Result<Seq<BitNode>, Or<Unread>>
    requires { Sound flat.now }
{
    match blast(alloc, flat) {
        Ok(nodes) => Ok(nodes),
        Err(Or::Memory) => Err(Or::Memory),
        Err(Or::Fault(_)) => Err(Or::Fault(Unread)),
    }
}

// Writes whether the outputs are the same at all operands.
fn put_operands(alloc: Global, flat: &Flat, out: &mut Vec<u8>) -> Result<(), Or<Unread>>
    requires { Sound flat.now }
{
    let stimulus = all_operands(alloc, &flat.ports)?;
    let lines = lines_of(alloc, flat, &stimulus)?;
    let others = lines_of_bits(alloc, flat, &stimulus)?;
    Ok(put_compared(&lines, &others, out)?)
}

// Writes whether lines are the same, and how many there are.
fn put_compared(lines: &[u8], others: &[u8], out: &mut Vec<u8>) -> Result<(), NoMemory> {
    let count = lines.iter().filter(|byte| **byte == b'\n').count();
    put(
        out,
        if lines == others {
            "the same at"
        } else {
            "others at"
        },
    )?;
    put_number(out, " ", narrow(count)?)?;
    put(out, " operands")
}

// Writes how many nodes there are.
fn put_nodes(alloc: Global, flat: &Flat, out: &mut Vec<u8>) -> Result<(), Or<Unread>>
    requires { Sound flat.now }
{
    match blast(alloc, flat) {
        Ok(nodes) => Ok(put_number(out, "", narrow(nodes.len())?)?),
        Err(Or::Memory) => Err(Or::Memory),
        Err(Or::Fault(_)) => Ok(put(out, "too many")?),
    }
}

// Writes the text of its net of single bits.
fn put_text(alloc: Global, flat: &Flat, out: &mut Vec<u8>) -> Result<(), Or<Unread>>
    requires { Sound flat.now }
{
    let nodes = nodes_of(alloc, flat)?;
    let text = print(alloc, flat, nodes.as_slice())?;
    Ok(put_bytes(out, text.as_slice())?)
}
