//! The header of the text: the declarations of the variables.
ghost use Rattle.std.specs.Prelude.{◌≡◌, ◌++◌, codes, map, IfOk, OnOk};
ghost use Rattle.verilog_text.specs.Names.{domain_name};
ghost use Rattle.verilog_text.specs.Text.{clock_names, domain_names};
ghost use Rattle.waves.specs.Vcd.{header_text, input_variable, output_variable, signal, variable};
ghost use Rattle.waves.specs.Vcd.{variable_line, variable_lines, variables};

use crate::codes::put_code;
use crate::pieces::{put, put_number};
use crate::wave::WaveVar;
use chw_base::{DomId, Name, NoMemory};
use chw_clock::{Port, Ports};
use std::alloc::Global;

/// A clock or a reset, by the first word of its name.
fn signal(alloc: Global, word: &[u8], domain: &Name) -> Result<WaveVar, NoMemory>
    ensures { IfOk result (λ it. it ≡ signal (word.now ++ domain.now)) }
{
    let mut name = Vec::from_slice(alloc, word)?;
    name.extend_from_slice(domain.as_slice())?;
    Ok(WaveVar {
        name: Name::from(name),
        width: 1,
    })
}

/// Adds the clock of a domain, and its reset where it has one.
fn put_signals(
    alloc: Global,
    ports: &Ports,
    number: usize,
    domain: &Name,
    into: &mut Vec<WaveVar>,
) -> Result<(), NoMemory>
    ensures { OnOk result (into.new.items
        ≡ into.old.items ++ map signal (domain_names ports.now.resets number domain.now)) }
{
    into.push(signal(alloc, b"clk_", domain)?)?;
    if ports.has_reset(number) {
        into.push(signal(alloc, b"rst_", domain)?)?;
    }
    Ok(())
}

/// Adds the clocks, each with its reset behind it where its domain has one.
fn put_clocks(alloc: Global, ports: &Ports, into: &mut Vec<WaveVar>) -> Result<(), NoMemory>
    ensures { OnOk result (into.new.items
        ≡ into.old.items ++ map signal (clock_names ports.now.resets 0 ports.now.domains)) }
{
    for (number, domain) in ports.domains.as_slice().iter().enumerate() {
        put_signals(alloc, ports, number, domain, into)?;
    }
    Ok(())
}

/// Writes the name of a domain, and nothing where there is none of this number.
fn put_domain(out: &mut Vec<u8>, domains: &[Name], domain: DomId) -> Result<(), NoMemory>
    ensures { OnOk result (out.new.items ≡ out.old.items ++ domain_name domains.now domain) }
{
    match domains.get(domain.number as usize) {
        Some(name) => put(out, name.as_slice()),
        None => Ok(()),
    }
}

/// An input or an output, by the first word of its name.
fn of_port(alloc: Global, word: &[u8], domains: &[Name], port: &Port) -> Result<WaveVar, NoMemory>
    ensures { IfOk result (λ it. it ≡ variable
        (word.now ++ domain_name domains.now port.now.dom ++ codes "_" ++ port.now.name)
        port.now.width) }
{
    let mut name = Vec::from_slice(alloc, word)?;
    put_domain(&mut name, domains, port.dom)?;
    put(&mut name, b"_")?;
    put(&mut name, port.name.as_slice())?;
    Ok(WaveVar {
        name: Name::from(name),
        width: port.width,
    })
}

/// Adds the inputs.
fn put_inputs(alloc: Global, ports: &Ports, into: &mut Vec<WaveVar>) -> Result<(), NoMemory>
    ensures { OnOk result (into.new.items
        ≡ into.old.items ++ map (input_variable ports.now.domains) ports.now.inputs) }
{
    for port in ports.inputs.as_slice() {
        into.push(of_port(alloc, b"i_", ports.domains.as_slice(), port)?)?;
    }
    Ok(())
}

/// Adds the outputs.
fn put_outputs(alloc: Global, ports: &Ports, into: &mut Vec<WaveVar>) -> Result<(), NoMemory>
    ensures { OnOk result (into.new.items
        ≡ into.old.items ++ map (output_variable ports.now.domains) ports.now.outputs) }
{
    for port in ports.outputs.as_slice() {
        into.push(of_port(alloc, b"o_", ports.domains.as_slice(), port)?)?;
    }
    Ok(())
}

/// The variables, in order.
fn variables_of(alloc: Global, ports: &Ports) -> Result<Vec<WaveVar>, NoMemory>
    ensures { IfOk result (λ v. v.items ≡ variables ports.now) }
{
    let mut variables = Vec::new(alloc);
    put_clocks(alloc, ports, &mut variables)?;
    put_inputs(alloc, ports, &mut variables)?;
    put_outputs(alloc, ports, &mut variables)?;
    Ok(variables)
}

/// Writes the line that declares the variable of a number.
fn put_variable(out: &mut Vec<u8>, number: u64, it: &WaveVar) -> Result<(), NoMemory>
    ensures { OnOk result (out.new.items ≡ out.old.items ++ variable_line number it.now) }
{
    put(out, b"$var wire ")?;
    put_number(out, u64::from(it.width))?;
    put(out, b" ")?;
    put_code(out, number)?;
    put(out, b" ")?;
    put(out, it.name.as_slice())?;
    put(out, b" $end\n")?;
    Ok(())
}

/// Writes the lines that declare the variables.
fn put_variables(out: &mut Vec<u8>, variables: &[WaveVar]) -> Result<(), NoMemory>
    ensures { OnOk result (out.new.items ≡ out.old.items ++ variable_lines 0 variables.now) }
{
    for (number, it) in variables.iter().enumerate() {
        put_variable(out, number as u64, it)?;
    }
    Ok(())
}

/// What stands before the first time.
pub fn header_of(alloc: Global, ports: &Ports) -> Result<Vec<u8>, NoMemory>
    ensures { IfOk result (λ text. text.items ≡ header_text ports.now) }
{
    let variables = variables_of(alloc, ports)?;
    let mut text = Vec::new(alloc);
    put(
        &mut text,
        b"$timescale 1 ns $end\n$scope module chw_top $end\n",
    )?;
    put_variables(&mut text, &variables)?;
    put(&mut text, b"$upscope $end\n$enddefinitions $end\n")?;
    Ok(text)
}
