//! The first lines of a text: the model, its inputs and its outputs.
ghost use Rattle.std.specs.Prelude.{◌≡◌, ◌++◌, codes, flat_map, OnOk};
ghost use Rattle.verilog_text.specs.Names.{input_name, output_name};
ghost use Rattle.verilog_text.specs.Text.{clock_names, domain_names};
ghost use Rattle.bit_laws.specs.BitNames.{place_name};
ghost use Rattle.bit_laws.specs.Blast.{blast};
ghost use Rattle.blif_text.specs.Pieces.{head_text, input_text, output_text};
ghost use Rattle.blif_text.specs.Printed.{spaced};

use crate::names::{put_input, put_output};
use crate::pieces::{put, put_number};
use chw_base::{Name, NoMemory};
use chw_clock::{Port, Ports};
use netlist::Flat;

/// Writes the name of a domain's clock or reset as a word, by what the name begins with.
fn put_signal(out: &mut Vec<u8>, start: &[u8], domain: &Name) -> Result<(), NoMemory>
    ensures { OnOk result (out.new.items
        ≡ out.old.items ++ (codes " " ++ (start.now ++ domain.now))) }
{
    put(out, b" ")?;
    put(out, start)?;
    put(out, domain.as_slice())?;
    Ok(())
}

/// Writes the name of a domain's clock, and that of its reset where it has one.
fn put_signals(
    out: &mut Vec<u8>,
    ports: &Ports,
    number: usize,
    domain: &Name,
) -> Result<(), NoMemory>
    ensures { OnOk result (out.new.items
        ≡ out.old.items ++ spaced (domain_names ports.now.resets number domain.now)) }
{
    put_signal(out, b"clk_", domain)?;
    if ports.has_reset(number) {
        put_signal(out, b"rst_", domain)?;
    }
    Ok(())
}

/// Writes the names of the clocks, each with its reset behind it where its domain has one.
fn put_clocks(out: &mut Vec<u8>, ports: &Ports) -> Result<(), NoMemory>
    ensures { OnOk result (out.new.items ≡ out.old.items
        ++ spaced (clock_names ports.now.resets 0 ports.now.domains)) }
{
    for (number, domain) in ports.domains.as_slice().iter().enumerate() {
        put_signals(out, ports, number, domain)?;
    }
    Ok(())
}

/// Writes the name of a bit of an input as a word.
fn put_input_bit(out: &mut Vec<u8>, ports: &Ports, port: &Port, place: u32) -> Result<(), NoMemory>
    ensures { OnOk result (out.new.items ≡ out.old.items
        ++ (codes " " ++ place_name (input_name ports.now.domains port.now) place)) }
{
    put(out, b" ")?;
    put_input(out, ports, port)?;
    put(out, b"_")?;
    put_number(out, place as usize)?;
    Ok(())
}

/// Writes the names of an input's bits, the least significant first.
fn put_input_bits(out: &mut Vec<u8>, ports: &Ports, port: &Port) -> Result<(), NoMemory>
    ensures { OnOk result (out.new.items ≡ out.old.items
        ++ input_text ports.now port.now) }
{
    for place in 0..port.width {
        put_input_bit(out, ports, port, place)?;
    }
    Ok(())
}

/// Writes the names of the bits of all inputs.
fn put_inputs(out: &mut Vec<u8>, ports: &Ports) -> Result<(), NoMemory>
    ensures { OnOk result (out.new.items ≡ out.old.items
        ++ flat_map (input_text ports.now) ports.now.inputs) }
{
    for port in ports.inputs.as_slice() {
        put_input_bits(out, ports, port)?;
    }
    Ok(())
}

/// Writes the name of a bit of an output as a word.
fn put_output_bit(out: &mut Vec<u8>, ports: &Ports, port: &Port, place: u32) -> Result<(), NoMemory>
    ensures { OnOk result (out.new.items ≡ out.old.items
        ++ (codes " " ++ place_name (output_name ports.now.domains port.now) place)) }
{
    put(out, b" ")?;
    put_output(out, ports, port)?;
    put(out, b"_")?;
    put_number(out, place as usize)?;
    Ok(())
}

/// Writes the names of an output's bits, the least significant first.
fn put_output_bits(out: &mut Vec<u8>, ports: &Ports, port: &Port) -> Result<(), NoMemory>
    ensures { OnOk result (out.new.items ≡ out.old.items
        ++ output_text ports.now port.now) }
{
    for place in 0..port.width {
        put_output_bit(out, ports, port, place)?;
    }
    Ok(())
}

/// Writes the names of the bits of all outputs.
fn put_outputs(out: &mut Vec<u8>, ports: &Ports) -> Result<(), NoMemory>
    ensures { OnOk result (out.new.items ≡ out.old.items
        ++ flat_map (output_text ports.now) ports.now.outputs) }
{
    for port in ports.outputs.as_slice() {
        put_output_bits(out, ports, port)?;
    }
    Ok(())
}

/// Writes the lines of the model, of the inputs and of the outputs.
pub fn put_header(out: &mut Vec<u8>, flat: &Flat) -> Result<(), NoMemory>
    ensures { OnOk result (out.new.items ≡ out.old.items ++ head_text (blast flat.now)) }
{
    put(out, b".model chw_top\n.inputs")?;
    put_clocks(out, &flat.ports)?;
    put_inputs(out, &flat.ports)?;
    put(out, b"\n.outputs")?;
    put_outputs(out, &flat.ports)?;
    put(out, b"\n")?;
    Ok(())
}
