//! The list of ports in a module's header.
ghost use Rattle.std.specs.Prelude.{◌≡◌, ◌++◌, take, slice_index_or, OnOk};
ghost use Rattle.verilog_text.specs.Text.{commas, header_items, input_item, numbered, output_item, width_in};
ghost use Rattle.verilog_print.specs.Parts.{items_text};
ghost use Rattle.verilog_print.specs.Scopes.{input_in, output_in, scope_of};

use crate::clocks::{Role, put_clocks};
use crate::names::{put_input, put_output};
use crate::pieces::{put, put_comma, put_range};
use crate::scope::Scope;
use chw_base::{NoMemory, WireId};
use netlist::Module;

/// Writes an input as an item of the header.
fn put_input_item(
    out: &mut Vec<u8>,
    scope: &Scope,
    number: usize,
    width: u32,
) -> Result<(), NoMemory>
    ensures { OnOk result (out.new.items ≡ out.old.items ++ input_item width (input_in scope.now number)) }
{
    put(out, b"input ")?;
    put_range(out, width)?;
    put(out, b" ")?;
    put_input(out, scope, number)?;
    Ok(())
}

/// Writes an output as an item of the header.
fn put_output_item(
    out: &mut Vec<u8>,
    scope: &Scope,
    number: usize,
    width: u32,
) -> Result<(), NoMemory>
    ensures { OnOk result (out.new.items ≡ out.old.items ++ output_item width (output_in scope.now number)) }
{
    put(out, b"output ")?;
    put_range(out, width)?;
    put(out, b" ")?;
    put_output(out, scope, number)?;
    Ok(())
}

/// The first of these widths, as many as the module has inputs.
fn input_widths(body: &Module) -> &[u32]
    ensures { result.now ≡ take body.now.inputs body.now.widths }
{
    let widths = body.widths.as_slice();
    let count = body.inputs as usize;
    if count < widths.len() {
        &widths[..count]
    } else {
        widths
    }
}

/// The width of a wire, and 0 where there is none of this number.
fn width_of(body: &Module, wire: WireId) -> u32
    ensures { result ≡ width_in body.now wire }
{
    match body.widths.as_slice().get(wire.number as usize) {
        Some(width) => *width,
        None => 0,
    }
}

/// Writes the inputs; `after` says whether an item stands before them.
fn put_inputs(out: &mut Vec<u8>, scope: &Scope, widths: &[u32], after: bool) -> Result<(), NoMemory>
    ensures { OnOk result (out.new.items
        ≡ out.old.items ++ items_text after (numbered (λ k width. input_item width (input_in scope.now k)) 0 widths.now)) }
{
    let mut before = after;
    for (number, width) in widths.iter().enumerate() {
        put_comma(out, before)?;
        put_input_item(out, scope, number, *width)?;
        before = true;
    }
    Ok(())
}

/// Writes the outputs; `after` says whether an item stands before them.
fn put_outputs(out: &mut Vec<u8>, scope: &Scope, body: &Module, after: bool) -> Result<(), NoMemory>
    ensures { OnOk result (out.new.items ≡ out.old.items
        ++ items_text after (numbered (λ k w. output_item (width_in body.now w) (output_in scope.now k)) 0 body.now.outputs)) }
{
    let mut before = after;
    for (number, wire) in body.outputs.as_slice().iter().enumerate() {
        put_comma(out, before)?;
        put_output_item(out, scope, number, width_of(body, *wire))?;
        before = true;
    }
    Ok(())
}

/// Writes the items of the header: the clocks with their resets, the inputs and the outputs.
pub fn put_header(out: &mut Vec<u8>, scope: &Scope, body: &Module) -> Result<(), NoMemory>
    ensures { OnOk result (out.new.items ≡ out.old.items ++ commas (header_items (scope_of scope.now) body.now)) }
{
    let inputs = input_widths(body);
    let clocks = !scope.ports.domains.is_empty();
    let some = clocks | !inputs.is_empty();
    put_clocks(out, Role::Declared, scope.ports)?;
    put_inputs(out, scope, inputs, clocks)?;
    put_outputs(out, scope, body, some)?;
    Ok(())
}
