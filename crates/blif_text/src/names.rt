//! The names of clocks, resets, wires, ports and their bits.
ghost use Rattle.std.specs.Prelude.{◌≡◌, ◌++◌, map, slice_index_or, [], OnOk};
ghost use Rattle.verilog_text.specs.Names.{domain_name, input_name, output_name, wire_text};
ghost use Rattle.bit_laws.specs.BitNames.{further, place_name, wire_name};
ghost use Rattle.bit_laws.specs.Bitnet.{clock_of, reset_of};
ghost use Rattle.bit_nodes.specs.Standing.{name_of, output_at};

use crate::pieces::{put, put_number};
use bit_nodes::BitName;
use chw_base::{DomId, NoMemory, WireId};
use chw_clock::{Port, Ports};
use netlist::Flat;

/// Writes the name of a domain, and nothing where there is none of this number.
fn put_domain(out: &mut Vec<u8>, ports: &Ports, domain: DomId) -> Result<(), NoMemory>
    ensures { OnOk result (out.new.items
        ≡ out.old.items ++ domain_name ports.now.domains domain) }
{
    match ports.domains.as_slice().get(domain.number as usize) {
        Some(name) => put(out, name.as_slice()),
        None => Ok(()),
    }
}

/// Writes the name of a domain's clock.
pub fn put_clock(out: &mut Vec<u8>, ports: &Ports, domain: DomId) -> Result<(), NoMemory>
    ensures { OnOk result (out.new.items ≡ out.old.items ++ clock_of ports.now domain) }
{
    put(out, b"clk_")?;
    put_domain(out, ports, domain)?;
    Ok(())
}

/// Writes the name of a domain's reset.
fn put_reset(out: &mut Vec<u8>, ports: &Ports, domain: DomId) -> Result<(), NoMemory>
    ensures { OnOk result (out.new.items ≡ out.old.items ++ reset_of ports.now domain) }
{
    put(out, b"rst_")?;
    put_domain(out, ports, domain)?;
    Ok(())
}

/// Writes the name of an input.
pub fn put_input(out: &mut Vec<u8>, ports: &Ports, port: &Port) -> Result<(), NoMemory>
    ensures { OnOk result (out.new.items
        ≡ out.old.items ++ input_name ports.now.domains port.now) }
{
    put(out, b"i_")?;
    put_domain(out, ports, port.dom)?;
    put(out, b"_")?;
    put(out, port.name.as_slice())?;
    Ok(())
}

/// Writes the name of an output.
pub fn put_output(out: &mut Vec<u8>, ports: &Ports, port: &Port) -> Result<(), NoMemory>
    ensures { OnOk result (out.new.items
        ≡ out.old.items ++ output_name ports.now.domains port.now) }
{
    put(out, b"o_")?;
    put_domain(out, ports, port.dom)?;
    put(out, b"_")?;
    put(out, port.name.as_slice())?;
    Ok(())
}

/// Writes the name of the input of this number, and nothing where there is none.
fn put_input_at(out: &mut Vec<u8>, ports: &Ports, number: usize) -> Result<(), NoMemory>
    ensures { OnOk result (out.new.items ≡ out.old.items
        ++ slice_index_or (map (input_name ports.now.domains) ports.now.inputs) number []) }
{
    match ports.inputs.as_slice().get(number) {
        Some(port) => put_input(out, ports, port),
        None => Ok(()),
    }
}

/// Writes the name of the output of this number, and nothing where there is none.
fn put_output_at(out: &mut Vec<u8>, ports: &Ports, number: usize) -> Result<(), NoMemory>
    ensures { OnOk result (out.new.items ≡ out.old.items ++ output_at ports.now number) }
{
    match ports.outputs.as_slice().get(number) {
        Some(port) => put_output(out, ports, port),
        None => Ok(()),
    }
}

/// Writes the name of the wire of this number, which is no input.
fn put_own_name(out: &mut Vec<u8>, wire: usize) -> Result<(), NoMemory>
    ensures { OnOk result (out.new.items ≡ out.old.items ++ wire_text wire) }
{
    put(out, b"w")?;
    put_number(out, wire)?;
    Ok(())
}

/// Writes the name of the wire of this number.
fn put_wire(out: &mut Vec<u8>, ports: &Ports, wire: usize) -> Result<(), NoMemory>
    ensures { OnOk result (out.new.items ≡ out.old.items ++ wire_name ports.now wire) }
{
    if wire < ports.inputs.len() {
        put_input_at(out, ports, wire)
    } else {
        put_own_name(out, wire)
    }
}

/// Writes the name of a bit of a wire.
pub fn put_bit(out: &mut Vec<u8>, ports: &Ports, wire: WireId, place: u32) -> Result<(), NoMemory>
    ensures { OnOk result (out.new.items
        ≡ out.old.items ++ place_name (wire_name ports.now wire.number) place) }
{
    put_wire(out, ports, wire.number as usize)?;
    put(out, b"_")?;
    put_number(out, place as usize)?;
    Ok(())
}

/// Writes the name of a further node of the cell that drives a wire.
fn put_further(out: &mut Vec<u8>, wire: WireId, number: u32) -> Result<(), NoMemory>
    ensures { OnOk result (out.new.items ≡ out.old.items ++ further wire.number number) }
{
    put_own_name(out, wire.number as usize)?;
    put(out, b"_x")?;
    put_number(out, number as usize)?;
    Ok(())
}

/// Writes the name of a bit of the output of this number.
fn put_output_bit(out: &mut Vec<u8>, ports: &Ports, port: u32, place: u32) -> Result<(), NoMemory>
    ensures { OnOk result (out.new.items
        ≡ out.old.items ++ place_name (output_at ports.now port) place) }
{
    put_output_at(out, ports, port as usize)?;
    put(out, b"_")?;
    put_number(out, place as usize)?;
    Ok(())
}

/// Writes the name of a single bit.
pub fn put_name(out: &mut Vec<u8>, flat: &Flat, name: BitName) -> Result<(), NoMemory>
    ensures { OnOk result (out.new.items ≡ out.old.items ++ name_of flat.now name) }
{
    match name {
        BitName::Bit { wire, place } => put_bit(out, &flat.ports, wire, place),
        BitName::Further { wire, number } => put_further(out, wire, number),
        BitName::Output { port, place } => put_output_bit(out, &flat.ports, port, place),
        BitName::Reset { domain } => put_reset(out, &flat.ports, domain),
    }
}
