//! Makes a large net, goes with it as far as a word says, and writes how many items were made last.
//! It is there to be timed: bench/flat.sh, bench/read.sh, bench/share.sh and bench/blif.sh do.
//!
//! Its words are a form of net, `chain`, `tower`, `ports` or `twice`, how many wires it has, and how
//! far to go: `made`, `judged`, `flat`, `ordered`, `shared`, `printed` or `read`, which reads the
//! printed text. After `text` it writes the printed text itself. `blasted` makes the nodes of the
//! net of single bits, and `bits` prints them too.
//!
//! The form `waves` is a text of waves of so many events, in place of a net.
//! It is `printed`, `read`, or written after `text`. bench/waves.sh times it.
#![tactic(auto)]

ghost use Rattle.net_rules.specs.PortsHold.{PortsHold};
ghost use Rattle.net_rules.specs.WellFormed.{WellFormed};
ghost use Rattle.netlist.specs.Sound.{Sound};

mod nets;
mod wave_texts;

use bit_blast::blast;
use blif_text::print as print_bits;
use chw_base::{NoMemory, Or};
use net_flat::flatten::flatten;
use net_rules::well_formed::well_formed;
use net_share::share;
use netlist::ordering::order;
use netlist::{Flat, Net};
use nets::{chain, ports, tower, twice};
use std::alloc::Global;
use std::env;
use std::io::Print;
use std::process::ExitCode;
use std::rt::Env;
use verilog_print::print;
use verilog_read::read;
use wave_texts::{times_read, waves};

/// Of a tower, how many modules it has.
const STOREYS: u32 = 1_000;

/// How far to go with a net.
#[derive(Clone, Copy)]
enum Stage {
    Made,
    Judged,
    Flat,
    Ordered,
    Shared,
    Blasted,
    Bits,
    Printed,
    Read,
    Text,
}

/// What is written: how many items were made last, or a text.
enum Written {
    Count(usize),
    Text(Vec<u8>),
}

/// Why nothing was made.
#[derive(Clone, Copy)]
enum Trouble {
    Words,
    Memory,
    /// The net isn't well formed, is too large, or has a loop or too many bits.
    Net,
}

impl From<NoMemory> for Trouble {
    fn from(_: NoMemory) -> Trouble {
        Trouble::Memory
    }
}

fn main(rt: HostRuntime) -> ExitCode {
    let status = match made(&rt) {
        Ok(Written::Count(count)) => match println!(rt; "{count}") {
            Ok(()) => return ExitCode::SUCCESS,
            Err(_) => 4,
        },
        Ok(Written::Text(text)) => match rt.write_all(text.as_slice()) {
            Ok(()) => return ExitCode::SUCCESS,
            Err(_) => 4,
        },
        Err(Trouble::Net) => 1,
        Err(Trouble::Words) => 2,
        Err(Trouble::Memory) => 6,
    };
    ExitCode::from(status)
}

// Reads the words and goes as far as they say.
fn made<R: Env + AllocGlobal>(rt: &R) -> Result<Written, Trouble> {
    let Ok(words) = env::args(rt) else {
        return Err(Trouble::Memory);
    };
    let mut words = words.skip(1);
    let (Some(form), Some(wires), Some(stage)) = (words.next(), words.next(), words.next()) else {
        return Err(Trouble::Words);
    };
    let Ok(wires) = wires.as_str().parse::<u32>() else {
        return Err(Trouble::Words);
    };
    let Some(stage) = stage_of(stage.as_str()) else {
        return Err(Trouble::Words);
    };
    if form.as_str() == "waves" {
        return with_waves(rt.alloc(), wires, stage);
    }
    let net = match form.as_str() {
        "chain" => chain(rt.alloc(), wires)?,
        "tower" => tower(rt.alloc(), STOREYS, wires / STOREYS)?,
        "ports" => ports(rt.alloc(), wires)?,
        "twice" => twice(rt.alloc(), wires)?,
        _ => return Err(Trouble::Words),
    };
    if let Stage::Text = stage {
        return Ok(Written::Text(print(rt.alloc(), &net)?));
    }
    Ok(Written::Count(go(rt.alloc(), &net, stage)?))
}

// Goes as far as this stage with the waves of so many events.
fn with_waves(alloc: Global, events: u32, stage: Stage) -> Result<Written, Trouble> {
    let text = waves(alloc, events)?;
    match stage {
        Stage::Text => Ok(Written::Text(text)),
        Stage::Read => Ok(Written::Count(times_read(alloc, &text)?)),
        _ => Ok(Written::Count(text.len())),
    }
}

fn stage_of(word: &str) -> Option<Stage> {
    match word {
        "made" => Some(Stage::Made),
        "judged" => Some(Stage::Judged),
        "flat" => Some(Stage::Flat),
        "ordered" => Some(Stage::Ordered),
        "shared" => Some(Stage::Shared),
        "blasted" => Some(Stage::Blasted),
        "bits" => Some(Stage::Bits),
        "printed" => Some(Stage::Printed),
        "read" => Some(Stage::Read),
        "text" => Some(Stage::Text),
        _ => None,
    }
}

// Goes with a net as far as this stage, and counts what was made last: modules, wires, cells, nodes or bytes.
fn go(alloc: Global, net: &Net, stage: Stage) -> Result<usize, Trouble> {
    if let Stage::Made = stage {
        return Ok(net.modules.len());
    }
    match well_formed(alloc, net) {
        Ok(()) => further(alloc, net, stage),
        Err(Or::Memory) => Err(Trouble::Memory),
        Err(Or::Fault(_)) => Err(Trouble::Net),
    }
}

// Goes further with a net that is well formed.
fn further(alloc: Global, net: &Net, stage: Stage) -> Result<usize, Trouble>
    requires { WellFormed net.now }
{
    match stage {
        Stage::Made | Stage::Judged => Ok(net.modules.len()),
        Stage::Flat => match flatten(alloc, net) {
            Ok(flat) => Ok(flat.widths.len()),
            Err(Or::Memory) => Err(Trouble::Memory),
            Err(Or::Fault(_)) => Err(Trouble::Net),
        },
        Stage::Ordered => cells_ordered(alloc, net),
        Stage::Shared => cells_left(alloc, net),
        Stage::Blasted | Stage::Bits => bits_made(alloc, net, stage),
        Stage::Printed | Stage::Text => Ok(print(alloc, net)?.len()),
        Stage::Read => modules_read(alloc, net),
    }
}

// How many modules the net has that is read from the printed text.
fn modules_read(alloc: Global, net: &Net) -> Result<usize, Trouble> {
    let text = print(alloc, net)?;
    match read(alloc, &text) {
        Ok(net) => Ok(net.modules.len()),
        Err(Or::Memory) => Err(Trouble::Memory),
        Err(Or::Fault(_)) => Err(Trouble::Net),
    }
}

// How many cells of the flat net are ordered.
fn cells_ordered(alloc: Global, net: &Net) -> Result<usize, Trouble>
    requires { WellFormed net.now }
{
    let Ok(flat) = flatten(alloc, net) else {
        return Err(Trouble::Net);
    };
    match order(alloc, &flat) {
        Ok(order) => Ok(order.cells.len()),
        Err(Or::Memory) => Err(Trouble::Memory),
        Err(Or::Fault(_)) => Err(Trouble::Net),
    }
}

// How many cells are left of the net where equal wires are shared.
fn cells_left(alloc: Global, net: &Net) -> Result<usize, Trouble>
    requires { WellFormed net.now }
{
    match flatten(alloc, net) {
        Ok(flat) => cells_left_of(alloc, &flat),
        Err(Or::Memory) => Err(Trouble::Memory),
        Err(Or::Fault(_)) => Err(Trouble::Net),
    }
}

// The same of its flat net.
fn cells_left_of(alloc: Global, flat: &Flat) -> Result<usize, Trouble>
    requires sound { Sound flat.now }
    requires ports { PortsHold flat.now.ports }
{
    match order(alloc, flat) {
        Ok(order) => {
            let net = share(alloc, flat, &order)?;
            // (it has one module)
            match net.modules.as_slice().first() {
                Some(top) => Ok(top.cells.len()),
                None => Ok(0),
            }
        }
        Err(Or::Memory) => Err(Trouble::Memory),
        Err(Or::Fault(_)) => Err(Trouble::Net),
    }
}

// How many nodes the net of single bits has, or how long its text is.
fn bits_made(alloc: Global, net: &Net, stage: Stage) -> Result<usize, Trouble>
    requires { WellFormed net.now }
{
    match flatten(alloc, net) {
        Ok(flat) => bits_made_of(alloc, &flat, stage),
        Err(Or::Memory) => Err(Trouble::Memory),
        Err(Or::Fault(_)) => Err(Trouble::Net),
    }
}

// The same of its flat net.
fn bits_made_of(alloc: Global, flat: &Flat, stage: Stage) -> Result<usize, Trouble>
    requires { Sound flat.now }
{
    match blast(alloc, flat) {
        Ok(nodes) => match stage {
            Stage::Bits => Ok(print_bits(alloc, flat, nodes.as_slice())?.len()),
            _ => Ok(nodes.len()),
        },
        Err(Or::Memory) => Err(Trouble::Memory),
        Err(Or::Fault(_)) => Err(Trouble::Net),
    }
}
