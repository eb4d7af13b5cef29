//! The names of domains, ports, wires, memories, modules and uses.
ghost use Rattle.std.specs.Prelude.{◌≡◌, ◌++◌, map, slice_index_or, [], decimal, OnOk};
ghost use Rattle.verilog_text.specs.Names.{clock_name, domain_name, input_name, output_name, reset_name, memory_text, use_text, wire_text};
ghost use Rattle.verilog_text.specs.Text.{name_in};
ghost use Rattle.verilog_print.specs.Scopes.{input_in, output_in, scope_of, title};

use crate::pieces::{put, put_number};
use crate::scope::Scope;
use chw_base::{DomId, NoMemory, WireId};
use chw_clock::{Port, Ports};

/// Writes the name of a domain, and nothing where there is none of this number.
fn put_domain(out: &mut Vec<u8>, ports: &Ports, domain: DomId) -> Result<(), NoMemory>
    ensures { OnOk result (out.new.items ≡ out.old.items ++ domain_name ports.now.domains domain) }
{
    match ports.domains.as_slice().get(domain.number as usize) {
        Some(name) => put(out, name.as_slice()),
        None => Ok(()),
    }
}

/// Writes the name of a domain's clock.
pub fn put_clock(out: &mut Vec<u8>, ports: &Ports, domain: DomId) -> Result<(), NoMemory>
    ensures { OnOk result (out.new.items ≡ out.old.items ++ clock_name (domain_name ports.now.domains domain)) }
{
    put(out, b"clk_")?;
    put_domain(out, ports, domain)?;
    Ok(())
}

/// Writes the name of a domain's reset.
pub fn put_reset(out: &mut Vec<u8>, ports: &Ports, domain: DomId) -> Result<(), NoMemory>
    ensures { OnOk result (out.new.items ≡ out.old.items ++ reset_name (domain_name ports.now.domains domain)) }
{
    put(out, b"rst_")?;
    put_domain(out, ports, domain)?;
    Ok(())
}

/// Writes the name of an input port.
fn put_input_port(out: &mut Vec<u8>, ports: &Ports, port: &Port) -> Result<(), NoMemory>
    ensures { OnOk result (out.new.items ≡ out.old.items ++ input_name ports.now.domains port.now) }
{
    put(out, b"i_")?;
    put_domain(out, ports, port.dom)?;
    put(out, b"_")?;
    put(out, port.name.as_slice())?;
    Ok(())
}

/// Writes the name of an output port.
fn put_output_port(out: &mut Vec<u8>, ports: &Ports, port: &Port) -> Result<(), NoMemory>
    ensures { OnOk result (out.new.items ≡ out.old.items ++ output_name ports.now.domains port.now) }
{
    put(out, b"o_")?;
    put_domain(out, ports, port.dom)?;
    put(out, b"_")?;
    put(out, port.name.as_slice())?;
    Ok(())
}

/// Writes a name that is a word and a number.
pub fn put_numbered(out: &mut Vec<u8>, word: &[u8], number: usize) -> Result<(), NoMemory>
    ensures { OnOk result (out.new.items ≡ out.old.items ++ (word.now ++ decimal number)) }
{
    put(out, word)?;
    put_number(out, number)?;
    Ok(())
}

/// Writes the name of the input of this number of the top, and nothing where there is none.
fn put_top_input(out: &mut Vec<u8>, ports: &Ports, number: usize) -> Result<(), NoMemory>
    ensures { OnOk result (out.new.items
        ≡ out.old.items ++ slice_index_or (map (input_name ports.now.domains) ports.now.inputs) number []) }
{
    match ports.inputs.as_slice().get(number) {
        Some(port) => put_input_port(out, ports, port),
        None => Ok(()),
    }
}

/// Writes the name of the output of this number of the top, and nothing where there is none.
fn put_top_output(out: &mut Vec<u8>, ports: &Ports, number: usize) -> Result<(), NoMemory>
    ensures { OnOk result (out.new.items
        ≡ out.old.items ++ slice_index_or (map (output_name ports.now.domains) ports.now.outputs) number []) }
{
    match ports.outputs.as_slice().get(number) {
        Some(port) => put_output_port(out, ports, port),
        None => Ok(()),
    }
}

/// Writes the name of a module's input of this number.
pub fn put_input(out: &mut Vec<u8>, scope: &Scope, number: usize) -> Result<(), NoMemory>
    ensures { OnOk result (out.new.items ≡ out.old.items ++ input_in scope.now number) }
{
    if scope.is_top {
        put_top_input(out, scope.ports, number)
    } else {
        put_numbered(out, b"i", number)
    }
}

/// Writes the name of a module's output of this number.
pub fn put_output(out: &mut Vec<u8>, scope: &Scope, number: usize) -> Result<(), NoMemory>
    ensures { OnOk result (out.new.items ≡ out.old.items ++ output_in scope.now number) }
{
    if scope.is_top {
        put_top_output(out, scope.ports, number)
    } else {
        put_numbered(out, b"y", number)
    }
}

/// Writes the name of a wire.
pub fn put_name(out: &mut Vec<u8>, scope: &Scope, wire: WireId) -> Result<(), NoMemory>
    ensures { OnOk result (out.new.items ≡ out.old.items ++ name_in (scope_of scope.now) wire) }
{
    if wire.number < scope.inputs {
        put_input(out, scope, wire.number as usize)
    } else {
        put_wire(out, wire.number as usize)
    }
}

/// Writes the name of the wire of this number, which is no input.
pub fn put_wire(out: &mut Vec<u8>, wire: usize) -> Result<(), NoMemory>
    ensures { OnOk result (out.new.items ≡ out.old.items ++ wire_text wire) }
{
    put_numbered(out, b"w", wire)
}

/// Writes the name of the memory of the RAM that drives this wire.
pub fn put_memory(out: &mut Vec<u8>, wire: usize) -> Result<(), NoMemory>
    ensures { OnOk result (out.new.items ≡ out.old.items ++ memory_text wire) }
{
    put_numbered(out, b"r", wire)
}

/// Writes the name of the use that is the cell of this number.
pub fn put_use_name(out: &mut Vec<u8>, place: usize) -> Result<(), NoMemory>
    ensures { OnOk result (out.new.items ≡ out.old.items ++ use_text place) }
{
    put_numbered(out, b"u", place)
}

/// Writes the name of the module of this number.
pub fn put_title(out: &mut Vec<u8>, is_top: bool, number: usize) -> Result<(), NoMemory>
    ensures { OnOk result (out.new.items ≡ out.old.items ++ title is_top number) }
{
    if is_top {
        put(out, b"chw_top")
    } else {
        put_numbered(out, b"m", number)
    }
}
